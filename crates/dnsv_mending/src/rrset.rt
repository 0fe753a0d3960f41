//! What has to be mended so that an RRset is signed.
ghost use Rattle.std.specs.Prelude.{◌≡◌, IfOk, OnOk, map, flat_map};
ghost use Rattle.std.specs.Option.{option_map};
ghost use Rattle.dnsv_mending.specs.Level.{seen_level};
ghost use Rattle.dnsv_mending.specs.Mend.{Offers, cheapest, seen};
ghost use Rattle.dnsv_mending.specs.Rrset.{rrset_ways, signature_ways};

use crate::facts::signature::{RrsetFacts, SignatureFacts};
use crate::level::Level;
use crate::mend::{Mend, is_none, offer_after};
use crate::signature::offer_signature;
use crate::told::Told;
use std::alloc::{AllocError, Global};

/// The least that has to be mended so that the RRset is signed; `None` where nothing leads there. `levels` are those of the
/// zones that may have signed it, from the root down, and `above` is the zone above its owner.
pub fn rrset_mend(
    alloc: Global,
    levels: &[Level],
    above: Option<&Mend>,
    rrset: &RrsetFacts,
) -> Result<Option<Mend>, AllocError>
    ensures { IfOk result (λ best. option_map seen best ≡ cheapest (rrset_ways (map seen_level levels.now)
        (option_map (λ m. seen m.now) above.entry) rrset.now)) }
{
    let mut best = None;
    if is_none(&rrset.signatures) {
        let own = Mend::fault(alloc, Told::Unsigned(rrset.number))?;
        offer_after(alloc, above, &own, &mut best)?;
        return Ok(best);
    }
    offer_signatures(alloc, levels, above, &rrset.signatures, &mut best)?;
    Ok(best)
}

/// Offers the ways by each of the signatures.
#[tactic(auto, using(crate::proofs::Lists::offered_next))]
fn offer_signatures(
    alloc: Global,
    levels: &[Level],
    above: Option<&Mend>,
    signatures: &[SignatureFacts],
    best: &mut Option<Mend>,
) -> Result<(), AllocError>
    ensures { OnOk result (Offers (flat_map (signature_ways (map seen_level levels.now) (option_map (λ m. seen m.now) above.entry))
        signatures.now) best.old best.new) }
{
    for signature in signatures {
        offer_signature(alloc, levels, above, signature, best)?;
    }
    Ok(())
}
