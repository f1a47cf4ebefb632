//! How a refusal is printed.

ghost use Rattle.std.specs.Prelude.{◌≡◌, ◌≢◌, IfErr, OnErr, OnOk};
ghost use Rattle.std.specs.Io.KnownBytes.{Appends};
ghost use Rattle.debugger.specs.Session.{AppendsBeginning};
ghost use Rattle.engines.specs.Faults.{refusal_line};
ghost use Rattle.byte_streams.specs.Written.{AppendsPart};

use crate::fault::Refusal;
use byte_streams::{Destination, WriteFault, refusal_line, write_whole};

/// Writes the line of a refusal as `write_refusal` does, and returns the exit status 1. If the write is refused, a beginning of
/// the line was written.
pub fn report<W: Destination>(refusal: &Refusal, out: &mut W) -> u8
    ensures status { result ≡ 1 }
    ensures whole { ¬ (W.may_refuse out.old WriteFault.Io) → ¬ (W.may_refuse out.old WriteFault.WroteNothing) → Appends (W.contents out.old) (W.contents out.new) (refusal_line refusal.now) }
    ensures line { AppendsBeginning (W.contents out.old) (W.contents out.new) (refusal_line refusal.now) }
{
    let _ = write_refusal(refusal, out);
    1
}

/// Writes the line of a refusal, `rvstm: ` and the refusal's text. The line is formed in full before anything is written, and
/// takes no memory. Refused as Io if a write failed, and as WroteNothing if a write took no bytes; then a beginning of the line
/// was written, and not all of it. It is never refused as Memory.
pub(crate) fn write_refusal<W: Destination>(
    refusal: &Refusal,
    out: &mut W,
) -> Result<(), WriteFault>
    ensures written { OnOk result (Appends (W.contents out.old) (W.contents out.new) (refusal_line refusal.now)) }
    ensures cut { OnErr result (AppendsPart (W.contents out.old) (W.contents out.new) (refusal_line refusal.now)) }
    ensures cause { IfErr result (W.may_refuse out.old) }
    ensures room { IfErr result (λ e. e ≢ WriteFault.Memory) }
{
    let line = refusal_line("rvstm: ", refusal.parts());
    write_whole(line.as_str().as_bytes(), out)
}
