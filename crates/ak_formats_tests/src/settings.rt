use ak_address::parse_address;
use ak_generate::fixed_settings;
use ak_settings::{Settings, Strategy};
use std::alloc::Global;
use std::test::Fail;

static LISTED: [&str; 5] = ["n1:1", "n2:1", "n3:1", "n4:1", "n5:1"];

// The address is listed, and has the role.
fn is_known(alloc: Global, settings: &Settings, name: &str) -> Result<bool, Fail> {
    let address = parse_address(alloc, name.as_bytes())?;
    Ok(settings.is_listed(&address) && settings.has_role(&address))
}

fn lists_five(alloc: Global, settings: &Settings) -> Result<bool, Fail> {
    'names: for name in &LISTED {
        if !is_known(alloc, settings, name)? {
            return Ok(false);
        }
    }
    Ok(settings.listed.len() == 5 && settings.role.len() == 5)
}

fn numbers(settings: &Settings) -> [u32; 8] {
    [
        settings.margin,
        settings.deadline,
        settings.stable,
        settings.shards,
        settings.buffer,
        settings.threshold,
        settings.limit,
        settings.weakly,
    ]
}

#[test]
fn the_settings_are_fixed(rt: HostRuntime) -> Result<(), Fail> {
    let settings = fixed_settings(rt.alloc())?;
    assert!(rt; lists_five(rt.alloc(), &settings)?);
    assert!(rt; settings.strategy == Strategy::StaticQuorum(3));
    assert!(rt; numbers(&settings) == [6, 3, 3, 10, 4, 1, 1, 0]);
    Ok(())
}
