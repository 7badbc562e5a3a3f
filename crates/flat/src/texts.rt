// The texts in the flat form: each is its own bytes.
ghost use Rattle.flat_form.specs.Form.{Gives};
ghost use Rattle.flat.specs.Texts.{entry_text_flat, event_data_text_flat, event_text_flat, log_time_text_flat, time_text_flat, typed_data_text_flat};

use event_data::EventData;
use field::le32_at;
use flat_form::{SelAnswer, no_question, of_written, refused};
use sel::Entry;
use storage::Timestamp;
use typed_data::TypedData;

// The text of a record's event, empty for an OEM record.
pub(crate) fn entry_text(data: &[u8], out: &mut [u8]) -> SelAnswer
    ensures { Gives (entry_text_flat «data».now) out.old result out.new }
{
    match Entry::parse(data) {
        Ok(parsed) => of_written(parsed.entry.event_description(out)),
        Err(why) => refused(why.number() as u32, why.value() as usize),
    }
}

// The text of three bytes of event data.
pub(crate) fn event_data_text(data: &[u8], out: &mut [u8]) -> SelAnswer
    ensures { Gives (event_data_text_flat «data».now) out.old result out.new }
{
    if data.len() != 3 {
        return no_question();
    }
    let d = EventData::parse(&[data[0], data[1], data[2]]);
    of_written(d.write_text(out))
}

// The text of event data by event type: byte 12 of a record, and then bytes 13 to 15.
pub(crate) fn typed_data_text(data: &[u8], out: &mut [u8]) -> SelAnswer
    ensures { Gives (typed_data_text_flat «data».now) out.old result out.new }
{
    if data.len() != 4 {
        return no_question();
    }
    let d = TypedData::parse(data[0], &[data[1], data[2], data[3]]);
    of_written(d.write_text(out))
}

// The text of an event: event type, sensor type, offset.
pub(crate) fn event_text(data: &[u8], out: &mut [u8]) -> SelAnswer
    ensures { Gives (event_text_flat «data».now) out.old result out.new }
{
    if data.len() != 3 {
        return no_question();
    }
    of_written(event_offset::decode_event(data[0], data[1], data[2], out))
}

// The text of a time of four bytes.
pub(crate) fn time_text(data: &[u8], out: &mut [u8]) -> SelAnswer
    ensures { Gives (time_text_flat «data».now) out.old result out.new }
{
    if data.len() != 4 {
        return no_question();
    }
    let time = Timestamp::from(le32_at(data, 0));
    of_written(time.write_text(out))
}

// The log's text of a time of four bytes.
pub(crate) fn log_time_text(data: &[u8], out: &mut [u8]) -> SelAnswer
    ensures { Gives (log_time_text_flat «data».now) out.old result out.new }
{
    if data.len() != 4 {
        return no_question();
    }
    let time = Timestamp::from(le32_at(data, 0));
    of_written(time.write_log_text(out))
}
