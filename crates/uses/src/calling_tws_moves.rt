//! A caller of `tws_moves`.

ghost use Rattle.std.specs.Prelude.{◌≡◌, ◌<◌, ◌^◌, length, IfOk, IsTrue};
ghost use Rattle.tws_moves.specs.Shortest.{packed_bytes};

use std::alloc::Global;
use tws_moves::{MovesFault, pack_moves};

/// Whether the bytes are the shortest that spell their moves.
pub fn is_packed(alloc: Global, bytes: &[u8]) -> Result<bool, MovesFault>
    requires { length bytes.now < 2 ^ 32 }
    ensures { IfOk result (λ same. IsTrue same → packed_bytes bytes.now ≡ bytes.now) }
{
    let packed = pack_moves(alloc, bytes)?;
    Ok(packed.as_slice() == bytes)
}
