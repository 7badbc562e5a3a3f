// The questions I, F and X: the index of the slots, a lookup by an index, and a walk with one.
use crate::from_place;
use crate::say::{say, say_le16, say_refusal, up_to};
use crate::walks::{MOST_PLACES, say_error, say_places, say_verdict};
use field::numbers::WRONG_INDEX;
use field::{le16_at, le32_at};
use ids::RecordId;
use index::IndexError;

pub(crate) fn index(data: &[u8]) {
    let mut index = [0u16; MOST_PLACES];
    let mut scratch = [0u16; MOST_PLACES];
    match index_make::make_index(data, &mut index, &mut scratch) {
        Ok(n) => {
            say(b"0");
            if 0 < n {
                say(b" ");
            }
            say_places(up_to(&index, n));
        }
        Err(why) => say_error(why),
    }
}

// The numbers of an index, as many as the two bytes in front say, put into the room, and the slots behind them; none where the question has fewer, or
// the room does.
fn read_index<'a>(data: &'a [u8], room: &'a mut [u16]) -> Option<(&'a [u16], &'a [u8])> {
    let (number, rest) = data.split_first_chunk()?;
    let k = u16::from_le_bytes(*number) as usize;
    let (numbers, slots) = rest.split_at_checked(2 * k)?;
    let index = room.get_mut(..k)?;
    for (place, bytes) in index.iter_mut().zip(numbers.as_chunks().0) {
        *place = u16::from_le_bytes(*bytes);
    }
    Some((index, slots))
}

pub(crate) fn find(data: &[u8]) {
    let mut room = [0u16; MOST_PLACES];
    let Some((index, slots)) = read_index(from_place(data, 2), &mut room) else {
        say(b"?");
        return;
    };
    let id = RecordId::new_raw(le16_at(data, 0));
    match index::find_indexed(slots, index, id) {
        Some(i) => {
            say(b"0 ");
            say_le16((i % 65536) as u16);
        }
        None => say(b"0"),
    }
}

pub(crate) fn walk(data: &[u8]) {
    let mut room = [0u16; MOST_PLACES];
    let Some((index, slots)) = read_index(from_place(data, 6), &mut room) else {
        say(b"?");
        return;
    };
    let places = le16_at(data, 4) as usize;
    if MOST_PLACES < places {
        say(b"?");
        return;
    }
    let budget = le32_at(data, 0) as usize;
    // What no walk lists, so that places that were touched show.
    let mut list = [0xEEEEu16; MOST_PLACES];
    walk_by(slots, index, budget, &mut list[..places]);
}

fn walk_by(slots: &[u8], index: &[u16], budget: usize, list: &mut [u16]) {
    match index::walk_indexed(slots, index, budget, list) {
        Ok(verdict) => say_verdict(verdict, list),
        Err(IndexError::Capture(why)) => say_error(why),
        Err(IndexError::WrongIndex) => say_refusal(WRONG_INDEX, 0),
    }
}
