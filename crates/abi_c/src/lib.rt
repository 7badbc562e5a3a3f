// The library for C: each function of the crate `abi` as an export, under the same promise. Programs in C link it with include/sel.h.
#![tactic(auto)]

ghost use Rattle.std.specs.Prelude.{◌≡◌, [], ◌∷◌};
ghost use Rattle.field.specs.Handed.{handed, ported};
ghost use Rattle.flat_form.specs.Form.{Gives, refusal, taken};
ghost use Rattle.flat_record.specs.Records.{entry_flat, entry_flat_of, get_entry_flat, get_entry_flat_of};
ghost use Rattle.flat_writer.specs.Kept.{kept_flat, written_kept};
ghost use Rattle.flat_writer.specs.Written.{written_flat};
ghost use Rattle.flat_answers.specs.Answers.{allocation_flat};
ghost use Rattle.flat.specs.Kinds.{flat_of};
ghost use Rattle.flat.specs.Lengths.{length_said};
ghost use Rattle.flat.specs.Requests.{request_of};
ghost use Rattle.abi.specs.Questions.{letter_bytes};
ghost use Rattle.connection.specs.Channel.{channel_hands, valid_channel};
ghost use Rattle.abi.specs.Units.{unit_hands};
ghost use Rattle.flat_events.specs.Events.{beside_of, message_flat, record_flat};
ghost use Rattle.index.specs.Find.{find_indexed};
ghost use Rattle.abi.specs.Indexes.{AddsIndex, MakesIndex, WalksIndexed, check_hands};
ghost use Rattle.abi.specs.Walks.{found_answer, Walks};
ghost use Rattle.partial.specs.Join.{joining};
ghost use Rattle.flat_parts.specs.Parts.{part_flat, part_of, reads_flat};
ghost use Rattle.abi.specs.Parts.{JoinsPart};
ghost use Rattle.same_entry.specs.Answer.{same_entry};
ghost use Rattle.abi.specs.Sames.{same_answer};
ghost use Rattle.storage.specs.Time.{log_time_text, time_text};
ghost use Rattle.event_data.specs.DataText.{data_text};
ghost use Rattle.event_data.specs.EventData.{event_data_of};
ghost use Rattle.typed_data.specs.Table.{typed_of};
ghost use Rattle.typed_data.specs.TypedText.{typed_text};
ghost use Rattle.event_offset.specs.Event.{event_text};
ghost use Rattle.event_offset.specs.Places.{lent_text};
ghost use Rattle.abi.specs.Filled.{Filled};
ghost use Rattle.abi.specs.Typed.{typed_answer};
ghost use Rattle.capture.specs.Length.{slots_hands};
ghost use Rattle.capture.specs.Slots.{first_slot};

use abi::{SelAnswer, SelFound, SelJoined, SelSame, SelTypedData, SelWalk};

// A record.
#[unsafe(no_mangle)]
pub extern "C" fn sel_entry(data: &[u8], out: &mut [u8]) -> SelAnswer
    ensures { Gives (entry_flat «data».now) out.old result out.new }
{
    abi::sel_entry(data, out)
}

// The bytes that the entry of a record keeps.
#[unsafe(no_mangle)]
pub extern "C" fn sel_keep(data: &[u8], out: &mut [u8]) -> SelAnswer
    ensures { Gives (kept_flat «data».now) out.old result out.new }
{
    abi::sel_keep(data, out)
}

// Writes the record of an entry by its flat bytes: it is made from fields.
#[unsafe(no_mangle)]
pub extern "C" fn sel_write_entry(flat: &[u8], out: &mut [u8]) -> SelAnswer
    ensures { Gives (written_flat flat.now) out.old result out.new }
{
    abi::sel_write_entry(flat, out)
}

// The same by its flat bytes and what it keeps.
#[unsafe(no_mangle)]
pub extern "C" fn sel_write_kept(kept: &[u8], flat: &[u8], out: &mut [u8]) -> SelAnswer
    ensures { Gives (written_kept kept.now flat.now) out.old result out.new }
{
    abi::sel_write_kept(kept, flat, out)
}

// The answer to Get SEL Entry.
#[unsafe(no_mangle)]
pub extern "C" fn sel_get_entry(data: &[u8], out: &mut [u8]) -> SelAnswer
    ensures { Gives (get_entry_flat «data».now) out.old result out.new }
{
    abi::sel_get_entry(data, out)
}

// Both under the version that has this number in Get Device ID.
#[unsafe(no_mangle)]
pub extern "C" fn sel_entry_of(version: u8, data: &[u8], out: &mut [u8]) -> SelAnswer
    ensures { Gives (entry_flat_of version «data».now) out.old result out.new }
{
    abi::sel_entry_of(version, data, out)
}

#[unsafe(no_mangle)]
pub extern "C" fn sel_get_entry_of(version: u8, data: &[u8], out: &mut [u8]) -> SelAnswer
    ensures { Gives (get_entry_flat_of version «data».now) out.old result out.new }
{
    abi::sel_get_entry_of(version, data, out)
}

// The answer to Get SEL Allocation Info.
#[unsafe(no_mangle)]
pub extern "C" fn sel_allocation(data: &[u8], out: &mut [u8]) -> SelAnswer
    ensures { Gives (allocation_flat «data».now) out.old result out.new }
{
    abi::sel_allocation(data, out)
}

// Any answer, text or request, by its kind's letter. The three above are there by name too, since the way by the letter is longer than the shortest of them.
#[unsafe(no_mangle)]
pub extern "C" fn sel_decode(kind: u8, data: &[u8], out: &mut [u8]) -> SelAnswer
    ensures { Gives (flat_of kind «data».now) out.old result out.new }
{
    abi::sel_decode(kind, data, out)
}

// What the length of an answer decides, before there is a byte of it.
#[unsafe(no_mangle)]
pub extern "C" fn sel_length(kind: u8, len: usize) -> SelAnswer
    ensures { result ≡ length_said kind len }
{
    abi::sel_length(kind, len)
}

// A number and what it carries, as the Rust has them.
#[unsafe(no_mangle)]
pub extern "C" fn sel_ported(number: u32, value: usize) -> SelAnswer
    ensures { result ≡ refusal (ported (handed number (value ∷ []))) }
{
    abi::sel_ported(number, value)
}

// How many bytes of an answer count; 0 for any other letter.
#[unsafe(no_mangle)]
pub extern "C" fn sel_bytes_that_count(kind: u8) -> usize
    ensures { result ≡ letter_bytes kind }
{
    abi::sel_bytes_that_count(kind)
}

// The payload of a request. The argument is the record's id, or what Clear SEL is to do; a command that has no payload does not look at it.
#[unsafe(no_mangle)]
pub extern "C" fn sel_request(
    command: u8,
    reservation: u16,
    argument: u16,
    out: &mut [u8],
) -> SelAnswer
    ensures { Gives (request_of command reservation argument) out.old result out.new }
{
    abi::sel_request(command, reservation, argument, out)
}

#[unsafe(no_mangle)]
pub extern "C" fn sel_channel(number: u8) -> SelAnswer
    ensures { result ≡ refusal (channel_hands valid_channel number) }
{
    abi::sel_channel(number)
}

#[unsafe(no_mangle)]
pub extern "C" fn sel_unit(number: u8) -> SelAnswer
    ensures { result ≡ refusal (unit_hands number) }
{
    abi::sel_unit(number)
}

#[unsafe(no_mangle)]
pub extern "C" fn sel_event_to_record(
    record_id: u16,
    time: u32,
    generator1: u8,
    generator2: u8,
    message: &[u8],
    out: &mut [u8],
) -> SelAnswer
    ensures { Gives (record_flat (beside_of record_id time generator1 generator2) message.now) out.old result out.new }
{
    abi::sel_event_to_record(record_id, time, generator1, generator2, message, out)
}

#[unsafe(no_mangle)]
pub extern "C" fn sel_record_to_event(record: &[u8], out: &mut [u8]) -> SelAnswer
    ensures { Gives (message_flat «record».now) out.old result out.new }
{
    abi::sel_record_to_event(record, out)
}

// Makes the index in front of one lent slice, with a second one of as many places.
#[unsafe(no_mangle)]
pub extern "C" fn sel_index_make(slots: &[u8], index: &mut [u16], scratch: &mut [u16]) -> SelAnswer
    ensures { MakesIndex slots.now index.old scratch.old result index.new scratch.new }
{
    abi::sel_index_make(slots, index, scratch)
}

// Extends the index of all slots but the last by that one.
#[unsafe(no_mangle)]
pub extern "C" fn sel_index_add(slots: &[u8], index: &mut [u16]) -> SelAnswer
    ensures { AddsIndex slots.now index.old result index.new }
{
    abi::sel_index_add(slots, index)
}

// What the walk with this index refuses before it looks at the list.
#[unsafe(no_mangle)]
pub extern "C" fn sel_index_check(slots: &[u8], index: &[u16]) -> u32
    ensures { result ≡ (check_hands slots.now index.now).number }
{
    abi::sel_index_check(slots, index)
}

#[unsafe(no_mangle)]
pub extern "C" fn sel_find_indexed(slots: &[u8], index: &[u16], id: u16) -> SelFound
    ensures { result ≡ found_answer (find_indexed slots.now index.now id) }
{
    abi::sel_find_indexed(slots, index, id)
}

#[unsafe(no_mangle)]
pub extern "C" fn sel_walk_indexed(
    slots: &[u8],
    index: &[u16],
    budget: usize,
    list: &mut [u16],
) -> SelWalk
    ensures { WalksIndexed slots.now index.now budget list.old result list.new }
{
    abi::sel_walk_indexed(slots, index, budget, list)
}

#[unsafe(no_mangle)]
pub extern "C" fn sel_reads(m: u8, out: &mut [u8]) -> SelAnswer
    ensures { Gives (reads_flat m) out.old result out.new }
{
    abi::sel_reads(m, out)
}

#[unsafe(no_mangle)]
pub extern "C" fn sel_request_part(
    reservation_id: u16,
    record_id: u16,
    offset: u8,
    bytes_to_read: u8,
    out: &mut [u8],
) -> SelAnswer
    ensures { Gives (part_flat (part_of reservation_id record_id offset bytes_to_read)) out.old result out.new }
{
    abi::sel_request_part(reservation_id, record_id, offset, bytes_to_read, out)
}

// Hands in the answer to the next read.
#[unsafe(no_mangle)]
pub extern "C" fn sel_join(m: u8, got: u8, next: u16, answer: &[u8], record: &mut [u8]) -> SelJoined
    ensures { JoinsPart (joining m got next) answer.now «record».old result «record».new }
{
    abi::sel_join(m, got, next, answer, record)
}

#[unsafe(no_mangle)]
pub extern "C" fn sel_same_entry(a: &[u8], b: &[u8]) -> SelSame
    ensures { result ≡ same_answer (same_entry valid_channel a.now b.now) }
{
    abi::sel_same_entry(a, b)
}

#[unsafe(no_mangle)]
pub extern "C" fn sel_event_text(
    event_type: u8,
    sensor_type: u8,
    offset: u8,
    out: &mut [u8],
) -> SelAnswer
    ensures { Gives (taken (event_text event_type sensor_type offset)) out.old result out.new }
{
    abi::sel_event_text(event_type, sensor_type, offset, out)
}

// The same from a lent store and its tables.
#[unsafe(no_mangle)]
pub extern "C" fn sel_event_text_from<'a>(
    store: &'a [u8],
    starts: &'a [u16],
    lengths: &'a [u8],
    event_type: u8,
    sensor_type: u8,
    offset: u8,
    out: &mut [u8],
) -> SelAnswer
    ensures { Gives (taken (lent_text store.now starts.now lengths.now event_type sensor_type offset)) out.old result out.new }
{
    abi::sel_event_text_from(store, starts, lengths, event_type, sensor_type, offset, out)
}

// Fills the store and its tables, which are then lent for many texts.
#[unsafe(no_mangle)]
pub extern "C" fn sel_texts(store: &mut [u8], starts: &mut [u16], lengths: &mut [u8]) -> SelAnswer
    ensures { Filled store.old starts.old lengths.old result store.new starts.new lengths.new }
{
    abi::sel_texts(store, starts, lengths)
}

#[unsafe(no_mangle)]
pub extern "C" fn sel_data_text(b1: u8, b2: u8, b3: u8, out: &mut [u8]) -> SelAnswer
    ensures { Gives (taken (data_text (event_data_of (b1 ∷ b2 ∷ b3 ∷ [])))) out.old result out.new }
{
    abi::sel_data_text(b1, b2, b3, out)
}

#[unsafe(no_mangle)]
pub extern "C" fn sel_typed_text(
    event_type: u8,
    b1: u8,
    b2: u8,
    b3: u8,
    out: &mut [u8],
) -> SelAnswer
    ensures { Gives (taken (typed_text (typed_of event_type (b1 ∷ b2 ∷ b3 ∷ [])))) out.old result out.new }
{
    abi::sel_typed_text(event_type, b1, b2, b3, out)
}

#[unsafe(no_mangle)]
pub extern "C" fn sel_time_text(time: u32, out: &mut [u8]) -> SelAnswer
    ensures { Gives (taken (time_text time)) out.old result out.new }
{
    abi::sel_time_text(time, out)
}

#[unsafe(no_mangle)]
pub extern "C" fn sel_log_time_text(time: u32, out: &mut [u8]) -> SelAnswer
    ensures { Gives (taken (log_time_text time)) out.old result out.new }
{
    abi::sel_log_time_text(time, out)
}

#[unsafe(no_mangle)]
pub extern "C" fn sel_typed_data(event_type: u8, b1: u8, b2: u8, b3: u8) -> SelTypedData
    ensures { result ≡ typed_answer (typed_of event_type (b1 ∷ b2 ∷ b3 ∷ [])) }
{
    abi::sel_typed_data(event_type, b1, b2, b3)
}

// What the length of a capture decides, before there is a byte of it.
#[unsafe(no_mangle)]
pub extern "C" fn sel_slots_length(len: usize) -> u32
    ensures { result ≡ (slots_hands len).number }
{
    abi::sel_slots_length(len)
}

#[unsafe(no_mangle)]
pub extern "C" fn sel_find(slots: &[u8], id: u16) -> SelFound
    ensures { result ≡ found_answer (first_slot slots.now id) }
{
    abi::sel_find(slots, id)
}

#[unsafe(no_mangle)]
pub extern "C" fn sel_walk(slots: &[u8], budget: usize, list: &mut [u16]) -> SelWalk
    ensures { Walks slots.now budget list.old result list.new }
{
    abi::sel_walk(slots, budget, list)
}
