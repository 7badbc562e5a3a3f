// What is read under a version of the standard: the number that names it, and then the bytes.
ghost use Rattle.flat_form.specs.Form.{Gives};
ghost use Rattle.flat_record.specs.Records.{entry_flat_of, get_entry_flat_of};
ghost use Rattle.flat.specs.Versions.{behind_version};

use flat_form::{SelAnswer, no_question};

pub(crate) fn entry(data: &[u8], out: &mut [u8]) -> SelAnswer
    ensures { Gives (behind_version entry_flat_of «data».now) out.old result out.new }
{
    if data.len() == 0 {
        return no_question();
    }
    flat_record::entry_of(data[0], &data[1..], out)
}

pub(crate) fn get_entry(data: &[u8], out: &mut [u8]) -> SelAnswer
    ensures { Gives (behind_version get_entry_flat_of «data».now) out.old result out.new }
{
    if data.len() == 0 {
        return no_question();
    }
    flat_record::get_entry_of(data[0], &data[1..], out)
}
