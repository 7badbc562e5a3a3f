// The question `=`: two records of sixteen bytes, end to end.
use crate::from_place;
use crate::say::{say, say_refusal, up_to};
use field::lengths::ENTRY;
use same_entry::SameError;

pub(crate) fn same(data: &[u8]) {
    if data.len() != 2 * ENTRY {
        say(b"?");
        return;
    }
    match same_entry::same_entry(up_to(data, ENTRY), from_place(data, ENTRY)) {
        Ok(true) => say(b"0 01"),
        Ok(false) => say(b"0 00"),
        Err(SameError::First(why) | SameError::Second(why)) => {
            say_refusal(why.number() as u32, why.value() as usize);
        }
    }
}
