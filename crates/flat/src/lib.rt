// The flat form by a letter: bytes are decoded and written, or refused, and a refusal changes nothing.
#![tactic(auto)]

mod lengths;
mod requests;
mod texts;
mod versions;

ghost use Rattle.std.specs.Prelude.{◌≡◌};
ghost use Rattle.flat_form.specs.Form.{Gives};
ghost use Rattle.flat.specs.Kinds.{answer_flat, flat_of, other_flat};
ghost use Rattle.flat.specs.Letters.{is_text, kind_of, text_question, upper_kind_of};

use answers::AnswerKind;
use flat_form::{SelAnswer, no_question};
pub use lengths::length_of;
pub use requests::requested;

// What the bytes of a question are read as.
#[derive(Clone, Copy, Debug, PartialEq, Eq)]
pub enum Kind {
    // An answer to a command, or a record.
    Answer(AnswerKind),
    Other(Question),
}

// What is no answer by itself.
#[derive(Clone, Copy, Debug, PartialEq, Eq)]
pub enum Question {
    // A record, for its event's text.
    EntryText,
    // An answer to Get SEL Entry, for its record's bytes.
    RecordPart,
    // A version's number, and then a record, or an answer to Get SEL Entry.
    EntryOf,
    GetEntryOf,
    // Three bytes of event data.
    EventData,
    EventDataText,
    // Byte 12 of a record, and then three bytes of event data, which are read by its event type.
    TypedData,
    TypedDataText,
    // The letter of a kind of answer, and a length of four bytes.
    Length,
    // Event type, sensor type, offset.
    EventText,
    // A time of four bytes: as the Rust has it, and as the log's lines do.
    TimeText,
    LogTimeText,
    // An id of two bytes.
    RecordId,
    // A command and its fields.
    Request,
}

// The kind that a letter names. Letters in upper case are told apart first: one table of both would be too wide for a jump.
pub fn kind_of(letter: u8) -> Option<Kind>
    ensures { result ≡ kind_of letter }
{
    if letter < b'a' {
        return upper_kind_of(letter);
    }
    match letter {
        b'e' => Some(Kind::Answer(AnswerKind::Entry)),
        b'g' => Some(Kind::Answer(AnswerKind::GetEntry)),
        b'i' => Some(Kind::Answer(AnswerKind::Info)),
        b'a' => Some(Kind::Answer(AnswerKind::Allocation)),
        b'r' => Some(Kind::Answer(AnswerKind::Reserve)),
        b'c' => Some(Kind::Answer(AnswerKind::Clear)),
        b'y' => Some(Kind::Other(Question::EntryText)),
        b'p' => Some(Kind::Other(Question::RecordPart)),
        b'd' => Some(Kind::Other(Question::EventData)),
        b'v' => Some(Kind::Other(Question::EventDataText)),
        b'x' => Some(Kind::Other(Question::EventText)),
        b't' => Some(Kind::Other(Question::TimeText)),
        b's' => Some(Kind::Other(Question::LogTimeText)),
        b'n' => Some(Kind::Other(Question::RecordId)),
        b'q' => Some(Kind::Other(Question::Request)),
        _ => None,
    }
}

fn upper_kind_of(letter: u8) -> Option<Kind>
    ensures { result ≡ upper_kind_of letter }
{
    match letter {
        b'D' => Some(Kind::Other(Question::TypedData)),
        b'E' => Some(Kind::Other(Question::EntryOf)),
        b'G' => Some(Kind::Other(Question::GetEntryOf)),
        b'L' => Some(Kind::Other(Question::Length)),
        b'V' => Some(Kind::Other(Question::TypedDataText)),
        _ => None,
    }
}

// Whether the flat bytes of that kind are a text.
pub fn is_text(kind: Option<Kind>) -> bool
    ensures { result ≡ is_text kind }
{
    match kind {
        Some(Kind::Answer(_)) | None => false,
        Some(Kind::Other(question)) => text_question(question),
    }
}

fn text_question(question: Question) -> bool
    ensures { result ≡ text_question question }
{
    match question {
        Question::EntryText => true,
        Question::RecordPart => false,
        Question::EntryOf => false,
        Question::GetEntryOf => false,
        Question::EventData => false,
        Question::EventDataText => true,
        Question::TypedData => false,
        Question::TypedDataText => true,
        Question::Length => false,
        Question::EventText => true,
        Question::TimeText => true,
        Question::LogTimeText => true,
        Question::RecordId => false,
        Question::Request => false,
    }
}

// Writes the flat bytes of the question to the start of out.
pub fn flat(letter: u8, data: &[u8], out: &mut [u8]) -> SelAnswer
    ensures { Gives (flat_of letter «data».now) out.old result out.new }
{
    match kind_of(letter) {
        Some(Kind::Answer(kind)) => answer(kind, data, out),
        Some(Kind::Other(question)) => other(question, data, out),
        None => no_question(),
    }
}

fn other(question: Question, data: &[u8], out: &mut [u8]) -> SelAnswer
    ensures { Gives (other_flat question «data».now) out.old result out.new }
{
    match question {
        Question::EntryText => texts::entry_text(data, out),
        Question::RecordPart => flat_record::record_part(data, out),
        Question::EntryOf => versions::entry(data, out),
        Question::GetEntryOf => versions::get_entry(data, out),
        Question::EventData => flat_record::event_data(data, out),
        Question::EventDataText => texts::event_data_text(data, out),
        Question::TypedData => flat_record::typed_data(data, out),
        Question::TypedDataText => texts::typed_data_text(data, out),
        Question::Length => lengths::length(data),
        Question::EventText => texts::event_text(data, out),
        Question::TimeText => texts::time_text(data, out),
        Question::LogTimeText => texts::log_time_text(data, out),
        Question::RecordId => flat_answers::record_id(data, out),
        Question::Request => requests::request(data, out),
    }
}

fn answer(kind: AnswerKind, data: &[u8], out: &mut [u8]) -> SelAnswer
    ensures { Gives (answer_flat kind «data».now) out.old result out.new }
{
    match kind {
        AnswerKind::Entry => flat_record::entry(data, out),
        AnswerKind::GetEntry => flat_record::get_entry(data, out),
        AnswerKind::Info => flat_answers::info(data, out),
        AnswerKind::Allocation => flat_answers::allocation(data, out),
        AnswerKind::Reserve => flat_answers::reserve(data, out),
        AnswerKind::Clear => flat_answers::clear(data, out),
    }
}
