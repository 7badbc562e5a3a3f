// What the length of an answer decides, before there is a byte of it.
ghost use Rattle.std.specs.Prelude.{◌≡◌, []};
ghost use Rattle.answers.specs.Length.{length_hands};
ghost use Rattle.flat_form.specs.Form.{decided, flat_answer};
ghost use Rattle.flat.specs.Lengths.{length_flat, length_said};

use crate::{Kind, kind_of};
use answers::AnswerKind;
use field::lengths::LengthError;
use field::{byte_at, le32_at};
use flat_form::{SelAnswer, no_question, too_long, too_short, written};

// As a question: the letter of a kind, and a length of four bytes. No output is lent to it: there is nothing to write.
pub(crate) fn length(data: &[u8]) -> SelAnswer
    ensures { result ≡ flat_answer (length_flat «data».now) [] }
{
    if data.len() != 5 {
        return no_question();
    }
    length_of(byte_at(data, 0), le32_at(data, 1) as usize)
}

// Of an answer of the kind that the letter names: 0, or the refusal of every answer of that length.
pub fn length_of(letter: u8, len: usize) -> SelAnswer
    ensures { result ≡ length_said letter len }
{
    match kind_of(letter) {
        Some(Kind::Answer(kind)) => length_of_kind(kind, len),
        Some(Kind::Other(_)) => no_question(),
        None => no_question(),
    }
}

fn length_of_kind(kind: AnswerKind, len: usize) -> SelAnswer
    ensures { result ≡ flat_answer (decided (length_hands kind len) []) [] }
{
    match answers::length_answer(kind, len) {
        Ok(()) => written(0),
        Err(LengthError::NotEnoughData(needed)) => too_short(needed as usize),
        Err(LengthError::TooLong) => too_long(),
    }
}
