// The index of a capture's slots: made, extended, checked, and used to find and to walk.
ghost use Rattle.std.specs.Prelude.{◌≡◌};
ghost use Rattle.index.specs.Find.{find_indexed};
ghost use Rattle.abi.specs.Indexes.{AddsIndex, MakesIndex, WalksIndexed, check_hands};
ghost use Rattle.abi.specs.Walks.{found_answer};

use crate::walk::{SelFound, SelWalk, in_numbers, in_two};
use capture::CaptureError;
use field::numbers::{BAD_CAPTURE, WRONG_INDEX};
use flat_form::{SelAnswer, no_room, refused, written};
use ids::RecordId;
use index::IndexError;

// Makes the index in front of one lent slice, with a second one of as many places.
#[unsafe(no_mangle)]
pub extern "C" fn sel_index_make(slots: &[u8], index: &mut [u16], scratch: &mut [u16]) -> SelAnswer
    ensures { MakesIndex slots.now index.old scratch.old result index.new scratch.new }
{
    match index_make::make_index(slots, index, scratch) {
        Ok(n) => written(n),
        Err(CaptureError::NoRoom(n)) => no_room(n),
        Err(CaptureError::BadCapture) => refused(BAD_CAPTURE, 0),
    }
}

// Extends the index of all slots but the last by that one.
#[unsafe(no_mangle)]
pub extern "C" fn sel_index_add(slots: &[u8], index: &mut [u16]) -> SelAnswer
    ensures { AddsIndex slots.now index.old result index.new }
{
    match index_make::add_to_index(slots, index) {
        Ok(n) => written(n),
        Err(IndexError::Capture(CaptureError::NoRoom(n))) => no_room(n),
        Err(IndexError::Capture(CaptureError::BadCapture)) => refused(BAD_CAPTURE, 0),
        Err(IndexError::WrongIndex) => refused(WRONG_INDEX, 0),
    }
}

// What the walk with this index refuses before it looks at the list.
#[unsafe(no_mangle)]
pub extern "C" fn sel_index_check(slots: &[u8], index: &[u16]) -> u32
    ensures { result ≡ (check_hands slots.now index.now).number }
{
    match capture::slots_answer(slots.len()) {
        Ok(()) => {
            if index::check_index(slots, index) {
                return 0;
            }
            WRONG_INDEX
        }
        Err(_) => BAD_CAPTURE,
    }
}

#[unsafe(no_mangle)]
pub extern "C" fn sel_find_indexed(slots: &[u8], index: &[u16], id: u16) -> SelFound
    ensures { result ≡ found_answer (find_indexed slots.now index.now id) }
{
    in_two(index::find_indexed(slots, index, RecordId::new_raw(id)))
}

#[unsafe(no_mangle)]
pub extern "C" fn sel_walk_indexed(
    slots: &[u8],
    index: &[u16],
    budget: usize,
    list: &mut [u16],
) -> SelWalk
    ensures { WalksIndexed slots.now index.now budget list.old result list.new }
{
    match index::walk_indexed(slots, index, budget, list) {
        Ok(verdict) => in_numbers(Ok(verdict)),
        Err(IndexError::Capture(e)) => in_numbers(Err(e)),
        Err(IndexError::WrongIndex) => SelWalk {
            number: WRONG_INDEX,
            verdict: 0,
            ask: 0,
            read: 0,
            needed: 0,
        },
    }
}
