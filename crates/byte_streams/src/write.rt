//! How bytes are written whole.

ghost use Rattle.std.specs.Prelude.{◌≡◌, ◌≢◌, ◌<◌, ◌≤◌, length, take, IfOk, IfErr, OnErr};
ghost use Rattle.std.specs.Io.KnownBytes.{Appends, Keeps};
ghost use Rattle.byte_streams.specs.Written.{AtMostAs, WritesText, taken_by};

use crate::destination::Destination;
use crate::fault::WriteFault;
use std::io;

/// Writes all the bytes. Refused as Io if a write failed, and as WroteNothing if a write took no bytes; then a
/// beginning of the bytes was written, and not all of them.
pub fn write_whole<W: Destination>(bytes: &[u8], out: &mut W) -> Result<(), WriteFault>
    ensures writes { WritesText W.Destination result out.old out.new bytes.now }
    ensures fault { IfErr result (λ e. e ≢ WriteFault.Memory) }
{
    let mut rest = bytes;
    while !rest.is_empty() {
        // Not by `?`: the proof answers this arm.
        match write_some(rest, out) {
            Ok(count) => rest = rest.split_at(count).1,
            Err(fault) => return Err(fault),
        }
    }
    Ok(())
}

/// Writes at least one of the first bytes, and returns how many. If it is refused, nothing was written.
fn write_some<W: Destination>(bytes: &[u8], out: &mut W) -> Result<usize, WriteFault>
    requires { 0 < length bytes.now }
    ensures ok { IfOk result (λ n. (0 < n) × (n ≤ length bytes.now)
        × Appends (W.contents out.old) (W.contents out.new) (take n bytes.now)) }
    ensures err { OnErr result (Keeps (W.contents out.old) (W.contents out.new)) }
    ensures fault { IfErr result (λ e. e ≢ WriteFault.Memory) }
    ensures cause { IfErr result (W.may_refuse out.old) }
    ensures same { AtMostAs (W.may_refuse out.new) (W.may_refuse out.old) }
{
    taken(out.write_part(bytes))
}

/// The number of bytes that a writer took, at least one; Io if the write failed, WroteNothing if it took none.
fn taken(answer: io::Result<usize>) -> Result<usize, WriteFault>
    ensures { result ≡ taken_by answer }
{
    match answer {
        Ok(0) => Err(WriteFault::WroteNothing),
        Ok(count) => Ok(count),
        Err(io::Error { .. }) => Err(WriteFault::Io),
    }
}
