// Copies of names.
ghost use Rattle.std.specs.Prelude.{◌≡◌, IfOk};

use fm_base::{Name, Seq};
use room::{NoRoom, from_slice};
use std::alloc::Global;

/// A name of its own.
pub fn own_name(alloc: Global, text: &[u8]) -> Result<Name, NoRoom>
    ensures { IfOk result (λ n. n ≡ text.now) }
{
    Ok(Seq::from_vec(from_slice(alloc, text)?))
}
