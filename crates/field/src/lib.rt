// Bytes and little-endian numbers at a place of a slice. Each reader is total: a byte past the end is 0. And the lengths of answers, and
// the numbers of refusals.
#![tactic(auto)]

pub mod lengths;
pub mod numbers;

ghost use Rattle.std.specs.Prelude.{◌≡◌, get_or};
ghost use Rattle.field.specs.Bits.{byte_at, le16_at, le24_at, le32_at};

pub fn byte_at(s: &[u8], at: usize) -> u8
    ensures { result ≡ byte_at s.now at }
{
    s.get(at).copied().unwrap_or(0)
}

// The same of numbers of 16 bits.
pub fn number_at(s: &[u16], at: usize) -> u16
    ensures { result ≡ get_or s.now at 0 }
{
    s.get(at).copied().unwrap_or(0)
}

// In each reader below `at + 1` to `at + 3` cannot wrap where `at` is a place of the slice.
pub fn le16_at(s: &[u8], at: usize) -> u16
    ensures { result ≡ le16_at s.now at }
{
    if at < s.len() {
        return u16::from_le_bytes([byte_at(s, at), byte_at(s, at + 1)]);
    }
    0
}

pub fn le24_at(s: &[u8], at: usize) -> u32
    ensures { result ≡ le24_at s.now at }
{
    if at < s.len() {
        return u32::from_le_bytes([byte_at(s, at), byte_at(s, at + 1), byte_at(s, at + 2), 0]);
    }
    0
}

pub fn le32_at(s: &[u8], at: usize) -> u32
    ensures { result ≡ le32_at s.now at }
{
    if at < s.len() {
        return u32::from_le_bytes([
            byte_at(s, at),
            byte_at(s, at + 1),
            byte_at(s, at + 2),
            byte_at(s, at + 3),
        ]);
    }
    0
}
