// A record read by parts.
ghost use Rattle.std.specs.Prelude.{◌≡◌};
ghost use Rattle.partial.specs.Join.{Takes, begun, held};
ghost use Rattle.partial.specs.Reads.{Lists};
ghost use Rattle.partial.specs.Request.{Requests};

use partial::{GetEntryPart, JoinError, Joining, PartError, ReadsError};

pub fn request(part: GetEntryPart, out: &mut [u8]) -> Result<usize, PartError>
    ensures { Requests part out.old result out.new }
{
    part.write_request(out)
}

pub fn reads(m: u8, out: &mut [u8]) -> Result<usize, ReadsError>
    ensures { Lists m out.old result out.new }
{
    partial::reads(m, out)
}

pub fn begin(m: u8) -> Joining
    ensures { result ≡ begun m }
{
    Joining::new(m)
}

pub fn take(joining: &mut Joining, answer: &[u8], out: &mut [u8]) -> Result<(), JoinError>
    ensures { Takes (held joining.old out.old) answer.now result (held joining.new out.new) }
{
    joining.take(answer, out)
}
