// The questions R, Q and J: the reads of a record, the request for a part of it, and the answers to its reads, joined.
ghost use Rattle.std.specs.Prelude.{◌<◌, IfSome, length};

use crate::say::{say, say_bytes, say_le16, say_refusal};
use field::lengths::ENTRY;
use field::numbers::NO_BYTES;
use field::{byte_at, le16_at};
use flat_form::{SelAnswer, no_question};
use partial::Joining;

pub(crate) fn reads(data: &[u8], out: &mut [u8]) -> SelAnswer {
    if data.len() != 1 {
        return no_question();
    }
    flat_parts::reads(byte_at(data, 0), out)
}

// Behind its room.
pub(crate) fn request(data: &[u8], out: &mut [u8]) -> SelAnswer {
    if data.len() != 7 {
        return no_question();
    }
    flat_parts::request(
        le16_at(data, 1),
        le16_at(data, 3),
        byte_at(data, 5),
        byte_at(data, 6),
        out,
    )
}

// The first of some answers, each its length and its bytes, and those behind it; none where there is no answer, or the first is cut off.
fn split_answer(answers: &[u8]) -> Option<(&[u8], &[u8])>
    ensures { IfSome result (λ p. length p.1.now < length answers.now) }
{
    let (n, rest) = answers.split_first()?;
    rest.split_at_checked(*n as usize)
}

// Whether none of the answers is cut off.
fn whole(answers: &[u8]) -> bool {
    let mut rest = answers;
    while let Some((_, behind)) = split_answer(rest) {
        rest = behind;
    }
    rest.is_empty()
}

pub(crate) fn join(data: &[u8]) {
    let Some((m, answers)) = data.split_first() else {
        say(b"?");
        return;
    };
    if *m == 0 {
        say_refusal(NO_BYTES, 0);
        return;
    }
    if !whole(answers) {
        say(b"?");
        return;
    }
    say(b"0");
    if !answers.is_empty() {
        say(b" ");
    }
    hand_in(*m, answers);
}

// Says the number of each answer, and then the next id and the record, where all reads have their answer.
fn hand_in(m: u8, answers: &[u8]) {
    let mut record = [0u8; ENTRY];
    let mut state = Joining::new(m);
    let mut rest = answers;
    while let Some((first, behind)) = split_answer(rest) {
        let number = match state.take(first, &mut record) {
            Ok(()) => 0,
            Err(why) => why.number(),
        };
        say_bytes(&[number]);
        rest = behind;
    }
    if state.got == ENTRY {
        say_le16(state.next);
        say_bytes(&record);
    }
}
