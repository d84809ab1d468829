ghost use Rattle.std.specs.Prelude.{◌≡◌, IfOk};
ghost use Rattle.ak_singleton.specs.Singleton.{only};

use ak_address::{Unique, Uniques};
use std::alloc::{AllocError, Global};

// The set of one process.
pub fn only(alloc: Global, who: &Unique) -> Result<Uniques, AllocError>
    ensures { IfOk result (λ set. set ≡ only who.now) }
{
    let mut set = Uniques::empty(alloc);
    set.insert(alloc, who)?;
    Ok(set)
}
