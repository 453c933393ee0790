ghost use Rattle.std.specs.Prelude.{OnOk};
ghost use Rattle.std.specs.Io.KnownBytes.{Appends};

use crate::fault::WriteFault;
use std::io::Write;

/// Writes a frame in one piece, and sends it out.
pub fn put_frame<W: Write>(out: &mut W, frame: &[u8]) -> Result<(), WriteFault>
    ensures { OnOk result (Appends (W.contents out.old) (W.contents out.new) frame.now) }
{
    if out.write_all(frame).is_err() || out.flush().is_err() {
        return Err(WriteFault);
    }
    Ok(())
}
