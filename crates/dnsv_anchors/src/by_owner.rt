//! Values by the owner of their records.

pub mod key;

ghost use Rattle.std.specs.Prelude.{◌≡◌, ◌++◌, ◌∷◌, [], OnOk, if◌then◌else◌};
ghost use Rattle.dnsv_names.specs.Name.{Labels, same_name};
ghost use Rattle.dnsv_anchors.specs.ByOwner.{values_at};

use crate::by_owner::key::OwnerKey;
use dnsv_names::{Name, WireName};
use std::alloc::{AllocError, Global};
use std::collections::BTreeMap;

/// Values by owner. It's a tree, so that a search among n owners takes time in proportion to log n.
pub type ByOwner<'a, T> = BTreeMap<OwnerKey<'a>, Vec<T>>;

/// Adds a value behind what is there for the owner.
pub fn add<'a, T: Drop>(
    alloc: Global,
    by_owner: &mut ByOwner<'a, T>,
    owner: &'a Name,
    value: T,
) -> Result<(), AllocError>
    ensures { OnOk result ((name : Labels) → values_at by_owner.new name
        ≡ values_at by_owner.old name ++ (if same_name name owner.now then value ∷ [] else [])) }
{
    add_at(alloc, by_owner, &WireName::of(owner), value)
}

/// The same, the owner's name by its wire form.
pub fn add_at<'a, T: Drop>(
    alloc: Global,
    by_owner: &mut ByOwner<'a, T>,
    owner: &WireName<'a>,
    value: T,
) -> Result<(), AllocError>
    ensures { OnOk result ((name : Labels) → values_at by_owner.new name
        ≡ values_at by_owner.old name ++ (if same_name name owner.now then value ∷ [] else [])) }
{
    let mut values = match by_owner.remove(&OwnerKey(owner.copied())) {
        Some(values) => values,
        None => Vec::new(alloc),
    };
    values.push(value)?;
    by_owner.insert(OwnerKey(owner.copied()), values)?;
    Ok(())
}

/// What is there for the owner, in the order in which it was added.
pub fn at<'m, 'a, T>(by_owner: &'m ByOwner<'a, T>, owner: &WireName<'a>) -> &'m [T]
    ensures { result.now ≡ values_at by_owner.now owner.now }
{
    match by_owner.get(&OwnerKey(owner.copied())) {
        Some(values) => values,
        None => &[],
    }
}
