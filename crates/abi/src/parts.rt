// A record read by parts: the list of reads, the request for one, and the answers joined.
ghost use Rattle.std.specs.Prelude.{◌≡◌, ◌≤◌};
ghost use Rattle.field.specs.Handed.{value_of};
ghost use Rattle.flat_form.specs.Form.{Gives};
ghost use Rattle.partial.specs.Join.{joining, number_of};
ghost use Rattle.flat_parts.specs.Parts.{part_flat, part_of, reads_flat};
ghost use Rattle.abi.specs.Parts.{JoinsPart};

use flat_form::SelAnswer;
use partial::{JoinError, Joining};

// The number, and what it carries; the next id and how many bytes of the record are there.
#[repr(C)]
#[derive(Clone, Copy)]
pub struct SelJoined {
    pub number: u32,
    pub value: u32,
    pub next: u16,
    pub got: u8,
}

#[unsafe(no_mangle)]
pub extern "C" fn sel_reads(m: u8, out: &mut [u8]) -> SelAnswer
    ensures { Gives (reads_flat m) out.old result out.new }
{
    flat_parts::reads(m, out)
}

#[unsafe(no_mangle)]
pub extern "C" fn sel_request_part(
    reservation_id: u16,
    record_id: u16,
    offset: u8,
    bytes_to_read: u8,
    out: &mut [u8],
) -> SelAnswer
    ensures { Gives (part_flat (part_of reservation_id record_id offset bytes_to_read)) out.old result out.new }
{
    flat_parts::request(reservation_id, record_id, offset, bytes_to_read, out)
}

// Hands in the answer to the next read.
#[unsafe(no_mangle)]
pub extern "C" fn sel_join(m: u8, got: u8, next: u16, answer: &[u8], record: &mut [u8]) -> SelJoined
    ensures { JoinsPart (joining m got next) answer.now «record».old result «record».new }
{
    let mut joining = Joining {
        most: m,
        got: got as usize,
        next,
    };
    let told = joining.take(answer, record);
    SelJoined {
        number: number_in(told),
        value: value_in(told),
        next: joining.next,
        got: joining.got as u8,
    }
}

// The number of what became of an answer, and what it carries: both 0 where it was taken.
fn number_in(told: Result<(), JoinError>) -> u32
    ensures { result ≡ (number_of told).number }
{
    match told {
        Ok(()) => 0,
        Err(why) => why.number() as u32,
    }
}

fn value_in(told: Result<(), JoinError>) -> u32
    requires { value_of (number_of told) ≤ 18 }
    ensures { result ≡ value_of (number_of told) }
{
    match told {
        Ok(()) => 0,
        Err(why) => why.value() as u32,
    }
}
