// The library for programs in other languages: numbers and lent slices in, numbers out. No function asks anything of its caller.
#![tactic(auto)]

mod connections;
mod events;
mod indexes;
mod parts;
mod same;
mod texts;
mod typed;
mod walk;

ghost use Rattle.std.specs.Prelude.{◌≡◌, [], ◌∷◌};
ghost use Rattle.field.specs.Handed.{handed, ported};
ghost use Rattle.flat_form.specs.Form.{Gives, refusal};
ghost use Rattle.flat_record.specs.Records.{entry_flat, entry_flat_of, get_entry_flat, get_entry_flat_of};
ghost use Rattle.flat_writer.specs.Kept.{kept_flat, written_kept};
ghost use Rattle.flat_writer.specs.Written.{written_flat};
ghost use Rattle.flat_answers.specs.Answers.{allocation_flat};
ghost use Rattle.flat.specs.Kinds.{flat_of};
ghost use Rattle.flat.specs.Lengths.{length_said};
ghost use Rattle.flat.specs.Requests.{request_of};
ghost use Rattle.abi.specs.Questions.{letter_bytes};

pub use connections::{sel_channel, sel_unit};
pub use events::{sel_event_to_record, sel_record_to_event};
use flat::Kind;
pub use flat_form::SelAnswer;
pub use indexes::{
    sel_find_indexed, sel_index_add, sel_index_check, sel_index_make, sel_walk_indexed,
};
pub use parts::{SelJoined, sel_join, sel_reads, sel_request_part};
pub use same::{SelSame, sel_same_entry};
pub use texts::{
    sel_data_text, sel_event_text, sel_event_text_from, sel_log_time_text, sel_texts,
    sel_time_text, sel_typed_text,
};
pub use typed::{SelTypedData, sel_typed_data};
pub use walk::{SelFound, SelWalk, sel_find, sel_slots_length, sel_walk};

// A record.
#[unsafe(no_mangle)]
pub extern "C" fn sel_entry(data: &[u8], out: &mut [u8]) -> SelAnswer
    ensures { Gives (entry_flat «data».now) out.old result out.new }
{
    flat_record::entry(data, out)
}

// The bytes that the entry of a record keeps.
#[unsafe(no_mangle)]
pub extern "C" fn sel_keep(data: &[u8], out: &mut [u8]) -> SelAnswer
    ensures { Gives (kept_flat «data».now) out.old result out.new }
{
    flat_writer::kept::keep(data, out)
}

// Writes the record of an entry by its flat bytes: it is made from fields.
#[unsafe(no_mangle)]
pub extern "C" fn sel_write_entry(flat: &[u8], out: &mut [u8]) -> SelAnswer
    ensures { Gives (written_flat flat.now) out.old result out.new }
{
    flat_writer::entry(flat, out)
}

// The same by its flat bytes and what it keeps.
#[unsafe(no_mangle)]
pub extern "C" fn sel_write_kept(kept: &[u8], flat: &[u8], out: &mut [u8]) -> SelAnswer
    ensures { Gives (written_kept kept.now flat.now) out.old result out.new }
{
    flat_writer::kept::entry_kept(kept, flat, out)
}

// The answer to Get SEL Entry.
#[unsafe(no_mangle)]
pub extern "C" fn sel_get_entry(data: &[u8], out: &mut [u8]) -> SelAnswer
    ensures { Gives (get_entry_flat «data».now) out.old result out.new }
{
    flat_record::get_entry(data, out)
}

// Both under the version that has this number in Get Device ID.
#[unsafe(no_mangle)]
pub extern "C" fn sel_entry_of(version: u8, data: &[u8], out: &mut [u8]) -> SelAnswer
    ensures { Gives (entry_flat_of version «data».now) out.old result out.new }
{
    flat_record::entry_of(version, data, out)
}

#[unsafe(no_mangle)]
pub extern "C" fn sel_get_entry_of(version: u8, data: &[u8], out: &mut [u8]) -> SelAnswer
    ensures { Gives (get_entry_flat_of version «data».now) out.old result out.new }
{
    flat_record::get_entry_of(version, data, out)
}

// The answer to Get SEL Allocation Info.
#[unsafe(no_mangle)]
pub extern "C" fn sel_allocation(data: &[u8], out: &mut [u8]) -> SelAnswer
    ensures { Gives (allocation_flat «data».now) out.old result out.new }
{
    flat_answers::allocation(data, out)
}

// Any answer, text or request, by its kind's letter. The three above are there by name too, since the way by the letter is longer than the shortest of them.
#[unsafe(no_mangle)]
pub extern "C" fn sel_decode(kind: u8, data: &[u8], out: &mut [u8]) -> SelAnswer
    ensures { Gives (flat_of kind «data».now) out.old result out.new }
{
    flat::flat(kind, data, out)
}

// What the length of an answer decides, before there is a byte of it.
#[unsafe(no_mangle)]
pub extern "C" fn sel_length(kind: u8, len: usize) -> SelAnswer
    ensures { result ≡ length_said kind len }
{
    flat::length_of(kind, len)
}

// A number and what it carries, as the Rust has them.
#[unsafe(no_mangle)]
pub extern "C" fn sel_ported(number: u32, value: usize) -> SelAnswer
    ensures { result ≡ refusal (ported (handed number (value ∷ []))) }
{
    flat_form::ported(number, value)
}

// How many bytes of an answer count; 0 for any other letter.
#[unsafe(no_mangle)]
pub extern "C" fn sel_bytes_that_count(kind: u8) -> usize
    ensures { result ≡ letter_bytes kind }
{
    match flat::kind_of(kind) {
        Some(Kind::Answer(asked)) => answers::bytes_that_count(asked),
        Some(Kind::Other(_)) => 0,
        None => 0,
    }
}

// The payload of a request. The argument is the record's id, or what Clear SEL is to do; a command that has no payload does not look at it.
#[unsafe(no_mangle)]
pub extern "C" fn sel_request(
    command: u8,
    reservation: u16,
    argument: u16,
    out: &mut [u8],
) -> SelAnswer
    ensures { Gives (request_of command reservation argument) out.old result out.new }
{
    flat::requested(command, reservation, argument, out)
}
