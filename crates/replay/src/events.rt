// The questions P and O, behind their room: the record of a Platform Event Message, and the message of a record.
use crate::from_place;
use field::{byte_at, le16_at, le32_at};
use flat_form::{SelAnswer, no_question};

pub(crate) fn to_record(data: &[u8], out: &mut [u8]) -> SelAnswer {
    if data.len() < 10 {
        return no_question();
    }
    flat_events::to_record(
        le16_at(data, 2),
        le32_at(data, 4),
        byte_at(data, 8),
        byte_at(data, 9),
        from_place(data, 10),
        out,
    )
}

pub(crate) fn to_message(data: &[u8], out: &mut [u8]) -> SelAnswer {
    if data.len() < 2 {
        return no_question();
    }
    flat_events::to_message(from_place(data, 2), out)
}
