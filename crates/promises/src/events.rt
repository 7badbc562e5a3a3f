// Platform Event Messages.
ghost use Rattle.platform_event.specs.Ways.{WritesMessage, WritesRecord};

use platform_event::{Beside, MessageError, RecordError};

pub fn write_record(message: &[u8], beside: Beside, out: &mut [u8]) -> Result<usize, RecordError>
    ensures { WritesRecord beside message.now out.old result out.new }
{
    platform_event::write_record(message, beside, out)
}

pub fn write_message(record: &[u8], out: &mut [u8]) -> Result<usize, MessageError>
    ensures { WritesMessage «record».now out.old result out.new }
{
    platform_event::write_message(record, out)
}
