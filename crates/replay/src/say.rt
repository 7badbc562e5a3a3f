// Parts of an answer's line, each written in one call.
use field::numbers::{INVALID_CHANNEL, NO_ROOM, TOO_SHORT, UNKNOWN_TYPE};

const STDOUT: i32 = 1;

pub(crate) fn say(s: &[u8]) {
    io::write_all(STDOUT, s);
}

// The first n; all of them where there are fewer.
pub(crate) fn up_to<T>(s: &[T], n: usize) -> &[T] {
    s.get(..n).unwrap_or(s)
}

// A number of the flat form, the low byte first.
pub(crate) fn say_le16(v: u16) {
    say_bytes(&v.to_le_bytes());
}

// More than the longest flat form has that is no text, 24 bytes.
const MOST_BYTES: usize = 80;

pub(crate) fn say_bytes(s: &[u8]) {
    if MOST_BYTES < s.len() {
        return;
    }
    let mut digits = [0u8; 2 * MOST_BYTES];
    let n = text::put_hex_bytes(s, &mut digits, 0);
    say(up_to(&digits, n));
}

// A refusal: with the length needed, in four digits, or with a type or channel, in two; any other number alone.
pub(crate) fn say_refusal(number: u32, value: usize) {
    io::print_decimal(STDOUT, number as u64);
    match number {
        TOO_SHORT | NO_ROOM => {
            say(b" ");
            let [low, high, ..] = value.to_le_bytes();
            say_bytes(&[high, low]);
        }
        UNKNOWN_TYPE | INVALID_CHANNEL => {
            say(b" ");
            let [carried, ..] = value.to_le_bytes();
            say_bytes(&[carried]);
        }
        _ => {}
    }
}
