// Bytes given to a writer: all of them, or a front of them where a write fails.
#![tactic(auto)]

ghost use Rattle.std.specs.Prelude.{ℕ, OnOk, take};
ghost use Rattle.std.specs.Io.KnownBytes.{Appends};

use std::io::{Error, Result, Write};

// Writes all of the bytes, or stops at the first write that fails, or that takes nothing and so has no reason: error 0. std's `write_all` goes on where a
// signal interrupts, and has a reason of its own for a write that takes nothing.
pub fn print<W: Write>(out: &mut W, bytes: &[u8]) -> Result<()>
    ensures all { OnOk result (Appends (W.contents out.old) (W.contents out.new) bytes.now) }
    ensures front { (n : ℕ) × Appends (W.contents out.old) (W.contents out.new) (take n bytes.now) }
{
    let mut rest = bytes;
    // No `for`: each turn takes what the write before it left.
    while !rest.is_empty() {
        let n = out.write(rest)?;
        if n == 0 {
            return Err(Error::from_raw_os_error(0));
        }
        rest = &rest[n..];
    }
    Ok(())
}
