//! Names in memory of their own.
ghost use Rattle.std.specs.Prelude.{◌≡◌, IfOk};
ghost use Rattle.dnsv_names.specs.Name.{same_name};

use crate::name::Name;
use crate::wire::copied;
use std::alloc::{AllocError, Global};
use std::marker::Model;

/// A domain name that takes as many octets of memory as its wire form has, for where many are kept: a `Name` has room
/// for the longest.
#[derive(Debug, Drop)]
pub struct StoredName {
    octets: Vec<u8>,
}

impl Model for StoredName {
    ghost use Rattle.dnsv_names.specs.Name.{Labels};
    ghost use Rattle.dnsv_names.specs.Name.Spelling.{labels_of, SpellsName};

    ghost Value = { Labels };

    ghost view = { λ name. labels_of name.octets.items };

    ghost invariant = { λ name. SpellsName name.octets.items };
}

impl StoredName {
    /// The name as it is spelled.
    pub fn of(alloc: Global, name: &Name) -> Result<StoredName, AllocError>
        ensures { IfOk result (λ stored. stored ≡ name.now) }
    {
        let octets = Vec::from_slice(alloc, name.wire())?;
        Ok(StoredName { octets })
    }

    /// The name by value, as it is spelled.
    pub fn to_name(&self) -> Name
        ensures { result ≡ self.now }
    {
        Name {
            octets: copied(&self.octets),
        }
    }

    /// Whether it is equal to the name.
    pub fn is_same(&self, name: &Name) -> bool
        ensures { result ≡ same_name self.now name.now }
    {
        self.octets.as_slice().eq_ignore_ascii_case(name.wire())
    }
}
