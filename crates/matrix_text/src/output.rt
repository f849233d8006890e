//! Bytes put out whole.
ghost use Rattle.std.specs.Prelude.{◌≡◌, OnOk, OnErr, IfErr};
ghost use Rattle.std.specs.Io.KnownBytes.{Appends};
ghost use Rattle.matrix_text.specs.Prefixes.{PutsPart, PutsPrefix};

use crate::faults::TextFault;
use std::io::Write;

/// Puts out all of the bytes.
///
/// An error of the writer, or a call that takes nothing, is `Write`; then a prefix of the bytes is out, and not all of
/// them.
pub fn put_all<W: Write>(bytes: &[u8], w: &mut W) -> Result<(), TextFault>
    ensures ok { OnOk result (Appends (W.contents w.old) (W.contents w.new) bytes.now) }
    ensures err { OnErr result (PutsPrefix (W.contents w.old) (W.contents w.new) bytes.now) }
    ensures cut { OnErr result (PutsPart (W.contents w.old) (W.contents w.new) bytes.now) }
    ensures write { IfErr result (λ fault. fault ≡ TextFault.Write) }
{
    let mut sent = 0;
    while sent < bytes.len() {
        match w.write(&bytes[sent..]) {
            Ok(0) => return Err(TextFault::Write),
            Ok(taken) => sent += taken,
            Err(_) => return Err(TextFault::Write),
        }
    }
    Ok(())
}
