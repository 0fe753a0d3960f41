//! What has to be mended so that a signature is good under a trusted key.
ghost use Rattle.std.specs.Prelude.{◌≡◌, ◌++◌, OnOk, map, flat_map, slice_get};
ghost use Rattle.std.specs.Option.{option_map};
ghost use Rattle.dnsv_mending.specs.Level.{seen_key, seen_level};
ghost use Rattle.dnsv_mending.specs.Mend.{Offers, seen};
ghost use Rattle.dnsv_mending.specs.Rrset.{held_ways, named_ways, signature_ways, unheld_ways};

use crate::facts::signature::{NamedKey, SignatureFacts};
use crate::faults::{lines_under, signature_lines, unnamed_lines};
use crate::level::{HeldMend, Level};
use crate::mend::{Mend, is_none, offer, offer_after};
use crate::price::Class;
use std::alloc::{AllocError, Global};

/// Offers the ways on which a signature is good under a trusted key. `above` is the zone above the owner of its RRset.
#[tactic(auto, unfolding(crate::specs::Rrset::signature_ways))]
pub fn offer_signature(
    alloc: Global,
    levels: &[Level],
    above: Option<&Mend>,
    signature: &SignatureFacts,
    best: &mut Option<Mend>,
) -> Result<(), AllocError>
    ensures { OnOk result (Offers (signature_ways (map seen_level levels.now) (option_map (λ m. seen m.now) above.entry)
        signature.now) best.old best.new) }
{
    if signature.is_signed {
        offer(best, Mend::nothing(alloc));
        return Ok(());
    }
    if signature.faults.signer {
        let own = Mend::telling(alloc, signature_lines(alloc, signature)?);
        return offer_after(alloc, above, &own, best);
    }
    let Some(level) = levels.get(signature.signer) else {
        return Ok(());
    };
    offer_named(alloc, level, signature, best)
}

/// Offers those by the zone keys of the signer that it names; where it names none, that by the signer.
#[tactic(auto, using(crate::proofs::Lists::offered_both))]
fn offer_named(
    alloc: Global,
    level: &Level,
    signature: &SignatureFacts,
    best: &mut Option<Mend>,
) -> Result<(), AllocError>
    ensures { OnOk result (Offers (named_ways (seen_level level.now) signature.now signature.now.keys.items) best.old best.new) }
{
    if is_none(&signature.keys) {
        let own = Mend::telling(alloc, unnamed_lines(alloc, signature)?);
        return offer_after(alloc, level.zone.as_ref(), &own, best);
    }
    offer_held(alloc, level, signature, &signature.keys, best)?;
    offer_unheld(alloc, level, signature, &signature.keys, best)
}

/// Offers those by the DNSKEY RRsets that hold the keys.
#[tactic(auto, using(crate::proofs::Lists::offered_next))]
fn offer_held(
    alloc: Global,
    level: &Level,
    signature: &SignatureFacts,
    keys: &[NamedKey],
    best: &mut Option<Mend>,
) -> Result<(), AllocError>
    ensures { OnOk result (Offers (flat_map (held_ways (seen_level level.now) signature.now) keys.now) best.old best.new) }
{
    for key in keys {
        offer_held_key(alloc, level, signature, *key, best)?;
    }
    Ok(())
}

/// Offers that by the DNSKEY RRsets that hold the key.
#[tactic(auto, unfolding(crate::specs::Rrset::held_ways))]
fn offer_held_key(
    alloc: Global,
    level: &Level,
    signature: &SignatureFacts,
    key: NamedKey,
    best: &mut Option<Mend>,
) -> Result<(), AllocError>
    ensures { OnOk result (Offers (held_ways (seen_level level.now) signature.now key) best.old best.new) }
{
    let Some(held) = level.keys.get(key.key) else {
        return Ok(());
    };
    let own = Mend::telling(alloc, lines_under(alloc, level.is_trusted, signature, key)?);
    offer_after(alloc, held.mend.as_ref(), &own, best)
}

/// Offers those by the signer, of the keys that no trusted RRset holds.
#[tactic(auto, using(crate::proofs::Lists::offered_next))]
fn offer_unheld(
    alloc: Global,
    level: &Level,
    signature: &SignatureFacts,
    keys: &[NamedKey],
    best: &mut Option<Mend>,
) -> Result<(), AllocError>
    ensures { OnOk result (Offers (flat_map (unheld_ways (seen_level level.now) signature.now) keys.now) best.old best.new) }
{
    for key in keys {
        offer_unheld_key(alloc, level, signature, *key, best)?;
    }
    Ok(())
}

/// Offers that by the signer, where no trusted RRset holds the key.
#[tactic(auto, unfolding(crate::specs::Rrset::unheld_ways))]
fn offer_unheld_key(
    alloc: Global,
    level: &Level,
    signature: &SignatureFacts,
    key: NamedKey,
    best: &mut Option<Mend>,
) -> Result<(), AllocError>
    ensures { OnOk result (Offers (unheld_ways (seen_level level.now) signature.now key) best.old best.new) }
{
    let Some(held) = level.keys.get(key.key) else {
        return Ok(());
    };
    if held.is_trusted {
        return Ok(());
    }
    let mut own = Mend::telling(alloc, lines_under(alloc, level.is_trusted, signature, key)?);
    own.add_untold(Class::NotFitting);
    offer_after(alloc, level.zone.as_ref(), &own, best)
}
