//! Writing a whole piece in as many calls as it takes.

ghost use Rattle.std.specs.Prelude.{◌≡◌, ◌≤◌, OnOk, OnErr, length};
ghost use Rattle.hv_io.specs.Streams.{Rose, Gains, GainsPrefix};

use crate::failed::Failed;
use crate::sink::Sink;

/// Writes the whole piece.
///
/// `Failed` where a write failed; a front of the piece was gained then.
pub fn write_all<O: Sink>(out: &mut O, piece: &[u8]) -> Result<(), Failed>
    ensures gained { OnOk result (Gains (O.contents out.old) (O.contents out.new) piece.now) }
    ensures front { OnErr result (GainsPrefix (O.contents out.old) (O.contents out.new) piece.now) }
    ensures quiet { OnOk result (O.faults out.new ≡ O.faults out.old) }
    ensures counted { OnErr result (Rose (O.faults out.old) (O.faults out.new)) }
    ensures grows { O.faults out.old ≤ O.faults out.new }
{
    let mut done = 0;
    while done < piece.len() {
        let n = out.write(&piece[done..])?;
        done += n;
    }
    Ok(())
}
