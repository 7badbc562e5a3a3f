// Two records, compared.
ghost use Rattle.std.specs.Prelude.{◌≡◌};
ghost use Rattle.connection.specs.Channel.{valid_channel};
ghost use Rattle.same_entry.specs.Answer.{same_entry};
ghost use Rattle.abi.specs.Sames.{refused_record, same_answer};

use same_entry::SameError;
use sel::ParseEntryError;

// The number of the refusal and what it carries, both 0 where none is; 1 where the entries are equal; the record that is refused, 1 or 2.
#[repr(C)]
#[derive(Clone, Copy)]
pub struct SelSame {
    pub number: u32,
    pub value: u32,
    pub same: u32,
    pub refused: u32,
}

#[unsafe(no_mangle)]
pub extern "C" fn sel_same_entry(a: &[u8], b: &[u8]) -> SelSame
    ensures { result ≡ same_answer (same_entry valid_channel a.now b.now) }
{
    match same_entry::same_entry(a, b) {
        Ok(true) => SelSame {
            number: 0,
            value: 0,
            same: 1,
            refused: 0,
        },
        Ok(false) => SelSame {
            number: 0,
            value: 0,
            same: 0,
            refused: 0,
        },
        Err(SameError::First(why)) => refused_record(why, 1),
        Err(SameError::Second(why)) => refused_record(why, 2),
    }
}

fn refused_record(why: ParseEntryError, which: u32) -> SelSame
    ensures { result ≡ refused_record why which }
{
    SelSame {
        number: why.number() as u32,
        value: why.value() as u32,
        same: 0,
        refused: which,
    }
}
