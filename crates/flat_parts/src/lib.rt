// The flat form of the list of reads, and of the request for a part of a record.
#![tactic(auto)]

ghost use Rattle.flat_form.specs.Form.{Gives};
ghost use Rattle.flat_parts.specs.Parts.{part_flat, part_of, reads_flat};

use field::numbers::{NO_BYTES, NO_SUCH_PART, UNRESERVED};
use flat_form::{SelAnswer, no_room, refused, written};
use ids::{RecordId, ReservationId};
use partial::{GetEntryPart, PartError, ReadsError};

pub fn reads(m: u8, out: &mut [u8]) -> SelAnswer
    ensures { Gives (reads_flat m) out.old result out.new }
{
    match partial::reads(m, out) {
        Ok(n) => written(n),
        Err(ReadsError::NoBytes) => refused(NO_BYTES, 0),
        Err(ReadsError::NoRoom(n)) => no_room(n),
    }
}

pub fn request(
    reservation_id: u16,
    record_id: u16,
    offset: u8,
    bytes_to_read: u8,
    out: &mut [u8],
) -> SelAnswer
    ensures { Gives (part_flat (part_of reservation_id record_id offset bytes_to_read)) out.old result out.new }
{
    let part = GetEntryPart {
        reservation_id: ReservationId::new(reservation_id),
        record_id: RecordId::new_raw(record_id),
        offset,
        bytes_to_read,
    };
    match part.write_request(out) {
        Ok(n) => written(n),
        Err(PartError::Unreserved) => refused(UNRESERVED, 0),
        Err(PartError::NoSuchPart) => refused(NO_SUCH_PART, 0),
        Err(PartError::NoRoom(n)) => no_room(n),
    }
}
