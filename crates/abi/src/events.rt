// Platform Event Messages: the record of one, and the message of a record.
ghost use Rattle.flat_form.specs.Form.{Gives};
ghost use Rattle.flat_events.specs.Events.{beside_of, message_flat, record_flat};

use flat_form::SelAnswer;

#[unsafe(no_mangle)]
pub extern "C" fn sel_event_to_record(
    record_id: u16,
    time: u32,
    generator1: u8,
    generator2: u8,
    message: &[u8],
    out: &mut [u8],
) -> SelAnswer
    ensures { Gives (record_flat (beside_of record_id time generator1 generator2) message.now) out.old result out.new }
{
    flat_events::to_record(record_id, time, generator1, generator2, message, out)
}

#[unsafe(no_mangle)]
pub extern "C" fn sel_record_to_event(record: &[u8], out: &mut [u8]) -> SelAnswer
    ensures { Gives (message_flat «record».now) out.old result out.new }
{
    flat_events::to_message(record, out)
}
