// Requests in the flat form: a command and its fields, to the payload.
ghost use Rattle.std.specs.Prelude.{◌≡◌};
ghost use Rattle.flat_form.specs.Form.{Gives};
ghost use Rattle.flat.specs.Requests.{clear_of, question_length, request_flat, request_of};

use field::{byte_at, le16_at};
use flat_form::{SelAnswer, no_question, of_written};
use get_entry::GetEntry;
use ids::{RecordId, ReservationId};
use sel_commands::clear::ClearSel;
use sel_commands::get_alloc_info::GetAllocInfo;
use sel_commands::get_info::GetInfo;
use sel_commands::reserve::ReserveSel;

// A request as a question: the command, its reservation, and its argument, as many bytes of these as it has.
pub(crate) fn request(data: &[u8], out: &mut [u8]) -> SelAnswer
    ensures { Gives (request_flat «data».now) out.old result out.new }
{
    let command = byte_at(data, 0);
    if data.len() != question_length(command) {
        return no_question();
    }
    requested(command, le16_at(data, 1), le16_at(data, 3), out)
}

fn question_length(command: u8) -> usize
    ensures { result ≡ question_length command }
{
    match command {
        0x47 => 4,
        0x43 => 5,
        _ => 1,
    }
}

// The argument is the record's id, or what Clear SEL is to do; a command that has no payload does not look at it.
pub fn requested(command: u8, reservation: u16, argument: u16, out: &mut [u8]) -> SelAnswer
    ensures { Gives (request_of command reservation argument) out.old result out.new }
{
    match command {
        0x40 => of_written(GetInfo::write_request(out)),
        0x41 => of_written(GetAllocInfo::write_request(out)),
        0x42 => of_written(ReserveSel::write_request(out)),
        0x43 => {
            let request = GetEntry::new(
                ReservationId::new(reservation),
                RecordId::new_raw(argument),
            );
            of_written(request.write_request(out))
        }
        0x47 => cleared(reservation, argument, out),
        _ => no_question(),
    }
}

fn cleared(reservation: u16, argument: u16, out: &mut [u8]) -> SelAnswer
    ensures { Gives (clear_of reservation argument) out.old result out.new }
{
    let reservation_id = ReservationId::new(reservation);
    match argument {
        0x00AA => of_written(ClearSel::initiate(reservation_id).write_request(out)),
        0x0000 => of_written(ClearSel::get_status(reservation_id).write_request(out)),
        _ => no_question(),
    }
}
