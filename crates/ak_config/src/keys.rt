// Which keys a configuration may have.
ghost use Rattle.std.specs.Prelude.{◌≡◌, nat_eq};
ghost use Rattle.std.specs.List.{list_any};
ghost use Rattle.std.specs.Cmp.Lexicographic.{pointwise};
ghost use Rattle.toml.specs.View.{table_view};
ghost use Rattle.ak_config.specs.Configuration as read;
ghost use Rattle.ak_config.specs.ConfigContracts.{Gives};

use crate::fault::ConfigFault;
use crate::values::name;
use std::alloc::Global;
use toml::Table;

static KEYS: [&str; 20] = [
    "self",
    "uid",
    "listed",
    "strategy",
    "quorum",
    "down-if-alone",
    "margin",
    "deadline",
    "stable",
    "shards",
    "buffer",
    "threshold",
    "limit",
    "tick-ms",
    "seed",
    "found",
    "join",
    "weakly",
    "role",
    "types",
];

fn is_key(name: &str) -> bool
    ensures { result ≡ read.is_key name.now }
{
    is_one_of(&KEYS, name)
}

fn is_one_of(names: &[&str], name: &str) -> bool
    ensures { result ≡ list_any (λ one. pointwise nat_eq one.now name.now) names.now }
{
    names.iter().any(|one| *one == name)
}

/// Refuses the least key that a configuration may not have.
pub(crate) fn known_keys(alloc: Global, table: &Table) -> Result<(), ConfigFault>
    ensures { Gives result (read.known_keys (table_view table.now)) }
{
    'keys: for key in table.keys() {
        if !is_key(key.as_str()) {
            return Err(ConfigFault::Unknown(name(alloc, key.as_str())?));
        }
    }
    Ok(())
}
