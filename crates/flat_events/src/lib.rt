// The flat form of Platform Event Messages: the record of one, and the message of a record.
#![tactic(auto)]

ghost use Rattle.flat_form.specs.Form.{Gives};
ghost use Rattle.flat_events.specs.Events.{beside_of, message_flat, record_flat};

use field::numbers::{INVALID_CHANNEL, UNKNOWN_TYPE};
use flat_form::{SelAnswer, no_room, refused, too_long, too_short, written};
use ids::RecordId;
use platform_event::{Beside, MessageError, RecordError};
use storage::Timestamp;

pub fn to_record(
    record_id: u16,
    time: u32,
    generator1: u8,
    generator2: u8,
    message: &[u8],
    out: &mut [u8],
) -> SelAnswer
    ensures { Gives (record_flat (beside_of record_id time generator1 generator2) message.now) out.old result out.new }
{
    let beside = Beside {
        record_id: RecordId::new_raw(record_id),
        timestamp: Timestamp::from(time),
        generator1,
        generator2,
    };
    match platform_event::write_record(message, beside, out) {
        Ok(n) => written(n),
        Err(RecordError::TooShort(n)) => too_short(n),
        Err(RecordError::TooLong) => too_long(),
        Err(RecordError::InvalidChannel(n)) => refused(INVALID_CHANNEL, n as usize),
        Err(RecordError::NoRoom(n)) => no_room(n),
    }
}

pub fn to_message(record: &[u8], out: &mut [u8]) -> SelAnswer
    ensures { Gives (message_flat «record».now) out.old result out.new }
{
    match platform_event::write_message(record, out) {
        Ok(n) => written(n),
        Err(MessageError::TooShort(n)) => too_short(n),
        Err(MessageError::OtherType(ty)) => refused(UNKNOWN_TYPE, ty as usize),
        Err(MessageError::NoRoom(n)) => no_room(n),
    }
}
