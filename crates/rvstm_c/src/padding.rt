//! Bytes in the room that C has for them.

ghost use Rattle.std.specs.Prelude.{◌≡◌, ◌≤◌, length};
ghost use Rattle.rvstm_c.specs.Refusals.{padded};

/// Some bytes, and zeros after them.
pub(crate) fn padded<const ROOM: usize>(bytes: &[u8]) -> [u8; ROOM]
    requires { length bytes.now ≤ ROOM }
    ensures { result ≡ padded ROOM bytes.now }
{
    let mut room = [0; ROOM];
    room[..bytes.len()].copy_from_slice(bytes);
    room
}
