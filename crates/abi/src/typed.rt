// Event data by event type, in numbers.
ghost use Rattle.std.specs.Prelude.{◌≡◌, [], ◌∷◌};
ghost use Rattle.typed_data.specs.Table.{typed_of};
ghost use Rattle.abi.specs.Typed.{typed_answer};

use typed_data::TypedData;

// The offset, and then kind and value of the second byte, and of the third.
#[repr(C)]
#[derive(Clone, Copy)]
pub struct SelTypedData {
    pub offset: u8,
    pub kind2: u8,
    pub value2: u8,
    pub kind3: u8,
    pub value3: u8,
}

#[unsafe(no_mangle)]
pub extern "C" fn sel_typed_data(event_type: u8, b1: u8, b2: u8, b3: u8) -> SelTypedData
    ensures { result ≡ typed_answer (typed_of event_type (b1 ∷ b2 ∷ b3 ∷ [])) }
{
    let d = TypedData::parse(event_type, &[b1, b2, b3]);
    let data2 = d.data2;
    let data3 = d.data3;
    let second = data2.shown();
    let third = data3.shown();
    SelTypedData {
        offset: d.offset,
        kind2: second.kind,
        value2: second.value,
        kind3: third.kind,
        value3: third.value,
    }
}
