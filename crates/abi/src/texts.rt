// The texts of events, of event data and of times.
ghost use Rattle.std.specs.Prelude.{[], ◌∷◌};
ghost use Rattle.storage.specs.Time.{log_time_text, time_text};
ghost use Rattle.event_data.specs.DataText.{data_text};
ghost use Rattle.event_data.specs.EventData.{event_data_of};
ghost use Rattle.typed_data.specs.Table.{typed_of};
ghost use Rattle.typed_data.specs.TypedText.{typed_text};
ghost use Rattle.event_offset.specs.Event.{event_text};
ghost use Rattle.event_offset.specs.Places.{lent_text};
ghost use Rattle.flat_form.specs.Form.{Gives, taken};
ghost use Rattle.abi.specs.Filled.{Filled};

use event_data::EventData;
use event_offset::LentTexts;
use flat_form::{SelAnswer, of_written};
use storage::Timestamp;
use typed_data::TypedData;

#[unsafe(no_mangle)]
pub extern "C" fn sel_event_text(
    event_type: u8,
    sensor_type: u8,
    offset: u8,
    out: &mut [u8],
) -> SelAnswer
    ensures { Gives (taken (event_text event_type sensor_type offset)) out.old result out.new }
{
    of_written(event_offset::decode_event(event_type, sensor_type, offset, out))
}

// The same from a lent store and its tables.
#[unsafe(no_mangle)]
pub extern "C" fn sel_event_text_from<'a>(
    store: &'a [u8],
    starts: &'a [u16],
    lengths: &'a [u8],
    event_type: u8,
    sensor_type: u8,
    offset: u8,
    out: &mut [u8],
) -> SelAnswer
    ensures { Gives (taken (lent_text store.now starts.now lengths.now event_type sensor_type offset)) out.old result out.new }
{
    let texts = LentTexts {
        store,
        starts,
        lengths,
    };
    of_written(texts.decode_event_from(event_type, sensor_type, offset, out))
}

// Fills the store and its tables, which are then lent for many texts.
#[unsafe(no_mangle)]
pub extern "C" fn sel_texts(store: &mut [u8], starts: &mut [u16], lengths: &mut [u8]) -> SelAnswer
    ensures { Filled store.old starts.old lengths.old result store.new starts.new lengths.new }
{
    of_written(event_offset::fill_texts(store, starts, lengths))
}

#[unsafe(no_mangle)]
pub extern "C" fn sel_data_text(b1: u8, b2: u8, b3: u8, out: &mut [u8]) -> SelAnswer
    ensures { Gives (taken (data_text (event_data_of (b1 ∷ b2 ∷ b3 ∷ [])))) out.old result out.new }
{
    let d = EventData::parse(&[b1, b2, b3]);
    of_written(d.write_text(out))
}

#[unsafe(no_mangle)]
pub extern "C" fn sel_typed_text(
    event_type: u8,
    b1: u8,
    b2: u8,
    b3: u8,
    out: &mut [u8],
) -> SelAnswer
    ensures { Gives (taken (typed_text (typed_of event_type (b1 ∷ b2 ∷ b3 ∷ [])))) out.old result out.new }
{
    let d = TypedData::parse(event_type, &[b1, b2, b3]);
    of_written(d.write_text(out))
}

#[unsafe(no_mangle)]
pub extern "C" fn sel_time_text(time: u32, out: &mut [u8]) -> SelAnswer
    ensures { Gives (taken (time_text time)) out.old result out.new }
{
    let t = Timestamp::from(time);
    of_written(t.write_text(out))
}

#[unsafe(no_mangle)]
pub extern "C" fn sel_log_time_text(time: u32, out: &mut [u8]) -> SelAnswer
    ensures { Gives (taken (log_time_text time)) out.old result out.new }
{
    let t = Timestamp::from(time);
    of_written(t.write_log_text(out))
}
