//! The order in which trust is worked out.
ghost use Rattle.std.specs.Prelude.{◌↔◌, IfOk, IsTrue};
ghost use Rattle.dnsv_chain.specs.Order.{AreSteps, IsInChain};

use dnsv_canonical::Rrset;
use dnsv_names::RecordType;
use std::alloc::{AllocError, Global};

/// A DS or DNSKEY RRset to look at. Steps go from few labels to many, since what an RRset's trust depends on has fewer,
/// and from DS to DNSKEY, since the keys of an owner depend on its DS records.
#[derive(Clone, Copy, Debug, PartialEq, Eq, PartialOrd, Ord)]
pub struct Step {
    /// How many labels the owner has.
    pub labels: usize,
    /// DS or DNSKEY.
    pub rtype: RecordType,
    /// The place of the RRset, from 0 on.
    pub place: usize,
}

/// The steps for the RRsets.
pub fn steps(alloc: Global, rrsets: &[Rrset<'_>]) -> Result<Vec<Step>, AllocError>
    ensures { IfOk result (λ steps. AreSteps rrsets.now steps.items) }
{
    let mut steps = Vec::new(alloc);
    for (place, rrset) in rrsets.iter().enumerate() {
        if is_in_chain(rrset) {
            steps.push(Step {
                labels: rrset.owner().labels(),
                rtype: rrset.rtype(),
                place,
            })?;
        }
    }
    steps.sort_unstable();
    Ok(steps)
}

/// Whether it is a DS or DNSKEY RRset.
fn is_in_chain(rrset: &Rrset<'_>) -> bool
    ensures { IsTrue result ↔ IsInChain rrset.now }
{
    rrset.rtype() == RecordType::DS || rrset.rtype() == RecordType::DNSKEY
}
