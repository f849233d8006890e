//! Writers: bytes put out whole, or a call that broke.

ghost use Rattle.std.specs.Prelude.{◌≡◌, ◌<◌, IfErr, OnErr, OnOk, length, ⊤};
ghost use Rattle.std.specs.Io.{WritesAtMost};
ghost use Rattle.std.specs.Io.KnownBytes.{Appends, Keeps, WriteAppends};
ghost use Rattle.matrix_text.specs.Prefixes.{PutsPart};
ghost use Rattle.outputs.specs.Outputs.{TakesNone};

use matrix_text::TextFault;
use std::io;
use std::io::Write;

/// A writer whose broken calls contracts can name: so a promise can say that a text is out whole, if no call broke.
pub trait Output: Write {
    /// A call of it failed, or took nothing of some bytes.
    ghost broke: { Self → Type 0 };

    /// As [`Write::write`]: puts out some of the bytes from the first on, and answers how many.
    fn put(&mut self, bytes: &[u8]) -> io::Result<usize>
        ensures bound { WritesAtMost result bytes.now }
        ensures bytes { WriteAppends (Self.contents self.old) (Self.contents self.new) result bytes.now }
        ensures broke { 0 < length bytes.now → TakesNone result → broke self.new };

    /// As [`Write::flush`].
    fn hand_on(&mut self) -> io::Result<()>
        ensures bytes { Keeps (Self.contents self.old) (Self.contents self.new) }
        ensures broke { OnErr result (broke self.new) };
}

/// Each writer. Why a call of it broke is not known.
impl<W: Write> Output for W {
    ghost broke = { λ _. ⊤ };

    fn put(&mut self, bytes: &[u8]) -> io::Result<usize> {
        self.write(bytes)
    }

    fn hand_on(&mut self) -> io::Result<()> {
        self.flush()
    }
}

/// Puts out all of the bytes, if no call breaks.
pub fn put_whole<W: Output>(bytes: &[u8], w: &mut W) -> Result<(), TextFault>
    ensures ok { OnOk result (Appends (W.contents w.old) (W.contents w.new) bytes.now) }
    ensures cut { OnErr result (PutsPart (W.contents w.old) (W.contents w.new) bytes.now) }
    ensures broke { OnErr result (W.broke w.new) }
    ensures write { IfErr result (λ fault. fault ≡ TextFault.Write) }
{
    let mut sent = 0;
    while sent < bytes.len() {
        match w.put(&bytes[sent..]) {
            Ok(0) => return Err(TextFault::Write),
            Ok(taken) => sent += taken,
            Err(_) => return Err(TextFault::Write),
        }
    }
    Ok(())
}
