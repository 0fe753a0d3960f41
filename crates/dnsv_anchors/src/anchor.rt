//! Trust anchors.
ghost use Rattle.std.specs.Prelude.{◌≡◌};
ghost use Rattle.dnsv_anchors.specs.Anchor.{anchor_owner};

use dnsv_names::Name;
use dnsv_records::{Ds, Octets};

/// A trust anchor: what a validator is told to begin with (RFC 4033 2, RFC 4035 5).
#[derive(Debug, Drop)]
pub enum Anchor<'b> {
    /// A DS record of the owner.
    Ds { owner: Name, ds: Ds<'b> },
    /// The RDATA of a DNSKEY record of the owner.
    Key { owner: Name, rdata: Octets<'b> },
}

impl Anchor<'_> {
    /// The owner.
    pub fn owner(&self) -> &Name
        ensures { result.now ≡ anchor_owner self.now }
    {
        match self {
            Anchor::Ds { owner, .. } | Anchor::Key { owner, .. } => owner,
        }
    }
}
