ghost use Rattle.std.specs.Prelude.{◌≡◌, IfOk};
ghost use Rattle.ak_generate.specs.Fixed.{addresses, fixed};

use crate::process::address;
use ak_address::Address;
use ak_settings::{Settings, Strategy};
use std::alloc::{AllocError, Global};

/// The settings of every generated schedule: the addresses `n1:1` to `n5:1`, a static quorum of 3, margin 6, deadline 3,
/// stable 3, 10 shards, a buffer of 4, threshold 1 and limit 1; nobody is let in as WeaklyUp, each address has the role, and
/// there are no types (this project's choice). Only memory can fail.
pub fn fixed_settings(alloc: Global) -> Result<Settings, AllocError>
    ensures { IfOk result (λ settings. settings ≡ fixed) }
{
    let listed = addresses(alloc)?;
    let role = addresses(alloc)?;
    Ok(Settings {
        listed,
        strategy: Strategy::StaticQuorum(3),
        margin: 6,
        deadline: 3,
        stable: 3,
        shards: 10,
        buffer: 4,
        threshold: 1,
        limit: 1,
        weakly: 0,
        role,
        types: Vec::new(alloc),
    })
}

fn addresses(alloc: Global) -> Result<Vec<Address>, AllocError>
    ensures { IfOk result (λ listed. listed.items ≡ addresses) }
{
    let mut listed = Vec::new(alloc);
    listed.push(address(alloc, 1)?)?;
    listed.push(address(alloc, 2)?)?;
    listed.push(address(alloc, 3)?)?;
    listed.push(address(alloc, 4)?)?;
    listed.push(address(alloc, 5)?)?;
    Ok(listed)
}
