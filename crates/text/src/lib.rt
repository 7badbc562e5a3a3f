// Texts in a lent output: part after part at a place that moves on, and a whole text, or a refusal.
// The part writers, `put` and `put_..`, stand in for `fmt::Formatter`: only proved code can call them, since they require room.
#![tactic(auto)]

ghost use Rattle.std.specs.Prelude.{◌≡◌, [], ◌∷◌, ◌++◌, ◌<◌, ◌+◌, ◌*◌, ◌≤◌, length};
ghost use Rattle.text.specs.Numbers.{decimal, digit_of, hex, hex_bytes, last_two};
ghost use Rattle.text.specs.Text.{Put};
ghost use Rattle.text.specs.Written.{Wrote};

// The output is shorter than the text: the length needed. Nothing is written.
#[derive(Clone, Copy, Debug, PartialEq, Eq)]
pub struct NoRoom(pub usize);

// Writes the text to the start of out, and answers its length, or refuses, where out is shorter: the one test for room of all writers.
pub fn write(text: &[u8], out: &mut [u8]) -> Result<usize, NoRoom>
    ensures { Wrote text.now out.old result out.new }
{
    if out.len() < text.len() {
        return Err(NoRoom(text.len()));
    }
    let n = put(text, out, 0);
    Ok(n)
}

// Puts all of the text into out at the place at, and answers the place after it.
#[tactic(auto, using(crate::proofs::Writes::copied))]
pub fn put(text: &[u8], out: &mut [u8], at: usize) -> usize
    requires { at + length text.now ≤ length out.old }
    ensures { Put out.old out.new at result text.now }
{
    let next = at + text.len();
    out[at..next].copy_from_slice(text);
    next
}

#[tactic(auto, using(crate::proofs::Writes::one))]
pub fn put_byte(b: u8, out: &mut [u8], at: usize) -> usize
    requires { at + 1 ≤ length out.old }
    ensures { Put out.old out.new at result (b ∷ []) }
{
    out[at] = b;
    at + 1
}

pub fn put_decimal(n: u32, out: &mut [u8], at: usize) -> usize
    requires { at + length (decimal n) ≤ length out.old }
    ensures { Put out.old out.new at result (decimal n) }
{
    if n < 10 {
        return put_byte(digit((n % 10) as u8), out, at);
    }
    if n < 100 {
        return put_last_two(n, out, at);
    }
    let next = put_decimal(n / 100, out, at);
    put_last_two(n, out, next)
}

// Puts the last two decimal digits of a number.
fn put_last_two(n: u32, out: &mut [u8], at: usize) -> usize
    requires { at + 2 ≤ length out.old }
    ensures { Put out.old out.new at result (last_two n) }
{
    let next = put_byte(digit((n / 10 % 10) as u8), out, at);
    put_byte(digit((n % 10) as u8), out, next)
}

// Puts a name and then a number in decimal.
pub fn put_number(name: &[u8], number: u32, out: &mut [u8], at: usize) -> usize
    requires { at + length name.now + length (decimal number) ≤ length out.old }
    ensures { Put out.old out.new at result (name.now ++ decimal number) }
{
    let next = put(name, out, at);
    put_decimal(number, out, next)
}

// Puts the low four bits of a byte, a byte, or a number of 16 bits, in hexadecimal, in upper case.
pub fn put_hex1(b: u8, out: &mut [u8], at: usize) -> usize
    requires { at + 1 ≤ length out.old }
    ensures { Put out.old out.new at result (hex 1 b) }
{
    put_byte(digit(b % 16), out, at)
}

pub fn put_hex2(b: u8, out: &mut [u8], at: usize) -> usize
    requires { at + 2 ≤ length out.old }
    ensures { Put out.old out.new at result (hex 2 b) }
{
    let next = put_hex1(b / 16, out, at);
    put_hex1(b, out, next)
}

pub fn put_hex4(v: u16, out: &mut [u8], at: usize) -> usize
    requires { at + 4 ≤ length out.old }
    ensures { Put out.old out.new at result (hex 4 v) }
{
    let next = put_hex2((v / 256) as u8, out, at);
    put_hex2((v % 256) as u8, out, next)
}

// Puts a name and then one hexadecimal digit, or two.
pub fn put_named1(name: &[u8], value: u8, out: &mut [u8], at: usize) -> usize
    requires { at + length name.now + 1 ≤ length out.old }
    ensures { Put out.old out.new at result (name.now ++ hex 1 value) }
{
    let next = put(name, out, at);
    put_hex1(value, out, next)
}

pub fn put_named2(name: &[u8], value: u8, out: &mut [u8], at: usize) -> usize
    requires { at + length name.now + 2 ≤ length out.old }
    ensures { Put out.old out.new at result (name.now ++ hex 2 value) }
{
    let next = put(name, out, at);
    put_hex2(value, out, next)
}

// Puts bytes in hexadecimal, two digits each.
pub fn put_hex_bytes(data: &[u8], out: &mut [u8], at: usize) -> usize
    requires { at + length «data».now * 2 ≤ length out.old }
    ensures { Put out.old out.new at result (hex_bytes «data».now) }
{
    let mut next = at;
    for b in data {
        next = put_hex2(*b, out, next);
    }
    next
}

const DIGITS: [u8; 16] = *b"0123456789ABCDEF";

#[tactic(auto, unfolding(crate::specs::Numbers::digit_of))]
fn digit(d: u8) -> u8
    requires { d < 16 }
    ensures { result ≡ digit_of d }
{
    DIGITS[d as usize]
}
