// The flat form: one form of bytes for each decoded answer, what its writer answers, and the numbers in it, which are little-endian.
#![tactic(auto)]

ghost use Rattle.std.specs.Prelude.{◌≡◌, ◌+◌, ◌≤◌, length, [], ◌∷◌};
ghost use Rattle.field.specs.Bits.{le_bytes};
ghost use Rattle.field.specs.Handed.{handed, no_reservation, no_room, ported, short, too_long};
ghost use Rattle.text.specs.Text.{Put};
ghost use Rattle.flat_form.specs.Form.{Gives, from_written, refusal, said, taken, unasked};

use field::numbers::{NO_QUESTION, NO_RESERVATION, NO_ROOM, TOO_LONG, TOO_SHORT};
use text::NoRoom;

// What the writer of a flat form answers, a number in place of a Result, since C reads it: the number, and what it carries: 0 the bytes written, 4 those
// needed, a refusal its value.
#[repr(C)]
#[derive(Clone, Copy, Debug, PartialEq, Eq)]
pub struct SelAnswer {
    pub number: u32,
    pub value: usize,
}

// That many flat bytes were written.
pub fn written(length: usize) -> SelAnswer
    ensures { result ≡ said 0 length }
{
    SelAnswer {
        number: 0,
        value: length,
    }
}

// That many are needed; nothing was written.
pub fn no_room(length: usize) -> SelAnswer
    ensures { result ≡ refusal (no_room length) }
{
    SelAnswer {
        number: NO_ROOM,
        value: length,
    }
}

pub fn refused(number: u32, value: usize) -> SelAnswer
    ensures { result ≡ said number value }
{
    SelAnswer { number, value }
}

// An answer that is shorter than it has to be, one that is longer, and a reservation of 0.
pub fn too_short(needed: usize) -> SelAnswer
    ensures { result ≡ refusal (short needed) }
{
    refused(TOO_SHORT, needed)
}

pub fn too_long() -> SelAnswer
    ensures { result ≡ refusal too_long }
{
    refused(TOO_LONG, 0)
}

pub fn no_reservation() -> SelAnswer
    ensures { result ≡ refusal no_reservation }
{
    refused(NO_RESERVATION, 0)
}

// A number and what it carries, as the Rust has them: it does not tell these three apart.
pub fn ported(number: u32, value: usize) -> SelAnswer
    ensures { result ≡ refusal (ported (handed number (value ∷ []))) }
{
    match number {
        TOO_SHORT | TOO_LONG | NO_RESERVATION => refused(TOO_SHORT, 0),
        _ => refused(number, value),
    }
}

// The bytes are no question of the kind that was asked.
pub fn no_question() -> SelAnswer
    ensures { result ≡ refusal unasked }
{
    refused(NO_QUESTION, 0)
}

// What a text's writer answered, as the answer of the flat form.
pub fn of_written(w: Result<usize, NoRoom>) -> SelAnswer
    ensures { result ≡ from_written w }
{
    match w {
        Ok(n) => written(n),
        Err(NoRoom(n)) => no_room(n),
    }
}

// Writes flat bytes to the start of out, or refuses, where out is shorter.
pub fn write(bytes: &[u8], out: &mut [u8]) -> SelAnswer
    ensures { Gives (taken bytes.now) out.old result out.new }
{
    of_written(text::write(bytes, out))
}

// Puts a number as two bytes, or as four.
pub fn put_le16(n: u16, out: &mut [u8], at: usize) -> usize
    requires { at + 2 ≤ length out.old }
    ensures { Put out.old out.new at result (le_bytes 2 n) }
{
    text::put(&n.to_le_bytes(), out, at)
}

pub fn put_le32(n: u32, out: &mut [u8], at: usize) -> usize
    requires { at + 4 ≤ length out.old }
    ensures { Put out.old out.new at result (le_bytes 4 n) }
{
    text::put(&n.to_le_bytes(), out, at)
}
