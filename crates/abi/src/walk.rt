// Captures: the first slot with an id, and the walk along the chain.
ghost use Rattle.std.specs.Prelude.{◌≤◌, ◌≡◌};
ghost use Rattle.capture.specs.Length.{slots_hands};
ghost use Rattle.capture.specs.Slots.{first_slot};
ghost use Rattle.abi.specs.Walks.{Walks, count_of, found_answer, walk_answer};

use capture::{CaptureError, Verdict};
use field::numbers::{BAD_CAPTURE, NO_ROOM};
use ids::RecordId;

// 1 and the slot's number, or 0 and 0.
#[repr(C)]
#[derive(Clone, Copy)]
pub struct SelFound {
    pub found: usize,
    pub slot: usize,
}

// The number; the verdict: 0 ended, 1 missing, 2 spent, 3 circle; the id asked in vain or next to ask, the slots found, the places needed.
#[repr(C)]
#[derive(Clone, Copy)]
pub struct SelWalk {
    pub number: u32,
    pub verdict: u16,
    pub ask: u16,
    pub read: u32,
    pub needed: u32,
}

// What the length of a capture decides, before there is a byte of it.
#[unsafe(no_mangle)]
pub extern "C" fn sel_slots_length(len: usize) -> u32
    ensures { result ≡ (slots_hands len).number }
{
    match capture::slots_answer(len) {
        Ok(()) => 0,
        Err(_) => BAD_CAPTURE,
    }
}

#[unsafe(no_mangle)]
pub extern "C" fn sel_find(slots: &[u8], id: u16) -> SelFound
    ensures { result ≡ found_answer (first_slot slots.now id) }
{
    in_two(capture::find(slots, RecordId::new_raw(id)))
}

// What a search found, in numbers.
pub(crate) fn in_two(found: Option<usize>) -> SelFound
    ensures { result ≡ found_answer found }
{
    match found {
        Some(slot) => SelFound { found: 1, slot },
        None => SelFound { found: 0, slot: 0 },
    }
}

#[unsafe(no_mangle)]
pub extern "C" fn sel_walk(slots: &[u8], budget: usize, list: &mut [u16]) -> SelWalk
    ensures { Walks slots.now budget list.old result list.new }
{
    in_numbers(capture::walk(slots, budget, list))
}

// A verdict in numbers: what it counts fits 32 bits.
pub(crate) fn in_numbers(verdict: Result<Verdict, CaptureError>) -> SelWalk
    requires { count_of verdict ≤ 3000 }
    ensures { result ≡ walk_answer verdict }
{
    match verdict {
        Ok(Verdict::Ended { read }) => SelWalk {
            number: 0,
            verdict: 0,
            ask: 0,
            read: read as u32,
            needed: 0,
        },
        Ok(Verdict::Missing { ask, read }) => SelWalk {
            number: 0,
            verdict: 1,
            ask: ask.value(),
            read: read as u32,
            needed: 0,
        },
        Ok(Verdict::Spent { ask, read }) => SelWalk {
            number: 0,
            verdict: 2,
            ask: ask.value(),
            read: read as u32,
            needed: 0,
        },
        Ok(Verdict::Circle { read }) => SelWalk {
            number: 0,
            verdict: 3,
            ask: 0,
            read: read as u32,
            needed: 0,
        },
        Err(CaptureError::NoRoom(n)) => SelWalk {
            number: NO_ROOM,
            verdict: 0,
            ask: 0,
            read: 0,
            needed: n as u32,
        },
        Err(CaptureError::BadCapture) => SelWalk {
            number: BAD_CAPTURE,
            verdict: 0,
            ask: 0,
            read: 0,
            needed: 0,
        },
    }
}
