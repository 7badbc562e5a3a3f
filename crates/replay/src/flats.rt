// The letters that are answered with flat bytes: those of the crate `flat`, those that have their room in the
// question, M, N, K, Q, P and O, and R.
ghost use Rattle.std.specs.Prelude.{◌≤◌};

use crate::say::{say, say_bytes, say_refusal, up_to};
use crate::{events, parts};
use field::numbers::NO_QUESTION;
use field::{byte_at, le16_at};
use flat_form::SelAnswer;

// More than the longest flat form has, an event's text of 70 bytes.
const ROOM: usize = 80;

// Accepted is the flat bytes in hexadecimal, or a text as it is.
pub(crate) fn ask(letter: u8, data: &[u8]) {
    let mut out = [0xEEu8; ROOM];
    let room = room_in(letter, data);
    let answer = answer_to(letter, data, &mut out[..room]);
    if answer.number == NO_QUESTION {
        say(b"?");
        return;
    }
    if answer.number != 0 {
        say_refusal(answer.number, answer.value);
        return;
    }
    say(b"0");
    let flat = up_to(&out, answer.value);
    if flat.is_empty() {
        return;
    }
    say(b" ");
    if flat::is_text(flat::kind_of(letter)) {
        say(flat);
        return;
    }
    say_bytes(flat);
}

// The room that a question has in front; where it has none, or more, all of it.
fn room_in(letter: u8, data: &[u8]) -> usize
    ensures { result ≤ 80 }
{
    let room = match letter {
        b'Q' => byte_at(data, 0) as usize,
        b'P' | b'O' => le16_at(data, 0) as usize,
        _ => ROOM,
    };
    room.min(ROOM)
}

fn answer_to(letter: u8, data: &[u8], out: &mut [u8]) -> SelAnswer {
    match letter {
        b'M' => flat_writer::made(data, out),
        b'N' => flat_writer::kept::made_kept(data, out),
        b'K' => flat_writer::kept::again(data, out),
        b'R' => parts::reads(data, out),
        b'Q' => parts::request(data, out),
        b'P' => events::to_record(data, out),
        b'O' => events::to_message(data, out),
        _ => flat::flat(letter, data, out),
    }
}
