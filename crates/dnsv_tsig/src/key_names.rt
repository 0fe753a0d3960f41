//! The names of keys, to find one again.
ghost use Rattle.std.specs.Prelude.{◌≡◌, ◌||◌, OnOk};
ghost use Rattle.dnsv_names.specs.Name.{Labels, same_name};
ghost use Rattle.dnsv_tsig.specs.KeyNames.{has_name};

use dnsv_names::Name;
use std::alloc::{AllocError, Global};
use std::collections::BTreeSet;

/// Names as their wire forms in lower case, each once. It's a tree, so that a search among n names takes time in
/// proportion to log n.
pub type KeyNames = BTreeSet<Vec<u8>>;

/// Whether an equal name is there. It takes no memory.
pub fn has_name(names: &KeyNames, name: &Name) -> bool
    ensures { result ≡ has_name names.now name.now }
{
    let asked = name.to_lower();
    names.contains(asked.wire())
}

/// Adds a name.
pub fn add_name(alloc: Global, names: &mut KeyNames, name: &Name) -> Result<(), AllocError>
    ensures { OnOk result ((each : Labels) → has_name names.new each
        ≡ (same_name each name.now || has_name names.old each)) }
{
    let lower = name.to_lower();
    let octets = Vec::from_slice(alloc, lower.wire())?;
    names.insert(octets)?;
    Ok(())
}
