//! Paths below other paths.
ghost use Rattle.std.specs.Prelude.{◌≡◌, IfOk};
ghost use Rattle.vol_batch.specs.Paths.{below};

use std::alloc::{AllocError, Global};
use vol_volume::Bytes;

/// Returns the path of a name, or of a longer path, below another path.
pub fn below(alloc: Global, base: &[u8], path: &[u8]) -> Result<Bytes, AllocError>
    ensures { IfOk result (λ whole. whole ≡ below base.now path.now) }
{
    let mut bytes = Vec::from_slice(alloc, base)?;
    bytes.push(b'/')?;
    bytes.extend_from_slice(path)?;
    Ok(Bytes::from_vec(bytes))
}
