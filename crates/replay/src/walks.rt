// The kind w: a budget, a number of places lent, and the slots to walk over.
use crate::say::{say, say_bytes, say_le16, say_refusal};
use capture::{CaptureError, Verdict};
use field::numbers::{BAD_CAPTURE, NO_ROOM};
use field::{le16_at, le32_at};

pub(crate) const MOST_PLACES: usize = 3001;

pub(crate) fn say_places(list: &[u16]) {
    for place in list {
        say_le16(*place);
    }
}

fn say_walk(verdict: u8, ask: u16, read: usize, list: &[u16]) {
    say(b"0 ");
    let verdict = [verdict];
    say_bytes(&verdict);
    say_le16(ask);
    say_le16((read % 65536) as u16);
    say_places(list);
}

pub(crate) fn say_verdict(verdict: Verdict, list: &[u16]) {
    match verdict {
        Verdict::Ended { read } => say_walk(0, 0, read, list),
        Verdict::Missing { ask, read } => say_walk(1, ask.value(), read, list),
        Verdict::Spent { ask, read } => say_walk(2, ask.value(), read, list),
        Verdict::Circle { read } => say_walk(3, 0, read, list),
    }
}

pub(crate) fn say_error(why: CaptureError) {
    match why {
        CaptureError::NoRoom(n) => say_refusal(NO_ROOM, n),
        CaptureError::BadCapture => say_refusal(BAD_CAPTURE, 0),
    }
}

fn walk_into(slots: &[u8], budget: usize, list: &mut [u16]) {
    match capture::walk(slots, budget, list) {
        Ok(verdict) => say_verdict(verdict, list),
        Err(why) => say_error(why),
    }
}

pub(crate) fn walk(data: &[u8]) {
    if data.len() < 6 {
        say(b"?");
        return;
    }
    let budget = le32_at(data, 0) as usize;
    let places = le16_at(data, 4) as usize;
    if MOST_PLACES < places {
        say(b"?");
        return;
    }
    // What no walk lists, so that places that were touched show.
    let mut list = [0xEEEEu16; MOST_PLACES];
    walk_into(&data[6..], budget, &mut list[..places]);
}
