//! What has to be mended so that a question is denied.
ghost use Rattle.std.specs.Prelude.{◌≡◌, IfOk, OnOk, map, flat_map};
ghost use Rattle.std.specs.Option.{option_map};
ghost use Rattle.dnsv_mending.specs.Level.{seen_level};
ghost use Rattle.dnsv_remedies.specs.Denials.{denial, denial_ways, lacking, other_ways, speaker_ways};
ghost use Rattle.dnsv_remedies.specs.Remedy as remedies;
ghost use Rattle.dnsv_remedies.specs.Remedy.{Offers, seen};

use crate::facts::denial::SpeakerFacts;
use crate::parts::zone_kept;
use crate::remedy::{Remedy, end_with, fault, gap, offer, offer_after, put_in_front};
use crate::said::Said;
use crate::sources::offer_sources;
use dnsv_mending::{Class, Level};
use std::alloc::{AllocError, Global};

/// Offers the denial by the zone that should speak, the first of them, and those by the others that are whole. `labels` is how
/// many labels the name that is asked for has, and `is_below_dname` tells whether a name above it owns a DNAME RRset.
pub fn offer_denials(
    alloc: Global,
    levels: &[Level],
    labels: usize,
    is_below_dname: bool,
    speakers: &[SpeakerFacts],
    best: &mut Option<Remedy>,
) -> Result<(), AllocError>
    ensures { OnOk result (Offers (denial_ways (map seen_level levels.now) labels is_below_dname speakers.now) best.old best.new) }
{
    let Some((speaker, others)) = speakers.split_first() else {
        let line = Said::AnswerMissing(None);
        offer(best, fault(alloc, Class::Missing, line)?);
        return Ok(());
    };
    offer_speaker(alloc, levels, labels, is_below_dname, speaker, best)?;
    if !is_below_dname {
        offer_others(alloc, levels, labels, others, best)?;
    }
    Ok(())
}

/// Offers the denial by the zone.
fn offer_speaker(
    alloc: Global,
    levels: &[Level],
    labels: usize,
    is_below_dname: bool,
    speaker: &SpeakerFacts,
    best: &mut Option<Remedy>,
) -> Result<(), AllocError>
    ensures { OnOk result (Offers (speaker_ways (map seen_level levels.now) labels is_below_dname speaker.now) best.old best.new) }
{
    let own = denial(alloc, levels, labels, is_below_dname, speaker)?;
    offer_after(alloc, zone_kept(levels, speaker.labels), &own, best)
}

/// What has to be mended of the denial by the zone, which is taken as trusted.
fn denial(
    alloc: Global,
    levels: &[Level],
    labels: usize,
    is_below_dname: bool,
    speaker: &SpeakerFacts,
) -> Result<Remedy, AllocError>
    ensures { IfOk result (λ m. seen m ≡ denial (map seen_level levels.now) labels is_below_dname speaker.now) }
{
    if !speaker.has_denials {
        let line = Said::AnswerMissing(Some(speaker.labels));
        return fault(alloc, Class::Missing, line);
    }
    let mut made = if is_below_dname {
        gap(alloc)
    } else {
        lacking(alloc, levels, labels, speaker)?
    };
    end_with(&mut made, Said::DenialUnproved(speaker.labels))?;
    Ok(made)
}

/// What the zone lacks to deny the question.
fn lacking(
    alloc: Global,
    levels: &[Level],
    labels: usize,
    speaker: &SpeakerFacts,
) -> Result<Remedy, AllocError>
    ensures { IfOk result (λ m. seen m ≡ lacking (map seen_level levels.now) labels speaker.now) }
{
    let mut best = None;
    offer_sources(
        alloc,
        levels,
        labels,
        speaker.labels,
        &speaker.sources,
        &mut best,
    )?;
    let mut least = or_gap(alloc, best);
    put_in_front(alloc, &speaker.unusable, &mut least)?;
    Ok(least)
}

/// The least of what sources lack; without a source all is missing.
fn or_gap(alloc: Global, best: Option<Remedy>) -> Remedy
    ensures { seen result ≡ remedies.or_gap (option_map seen best) }
{
    match best {
        Some(least) => least,
        None => gap(alloc),
    }
}

/// Offers the denials by zones that needn't speak.
#[tactic(auto, using(crate::proofs::Lists::offered_next))]
fn offer_others(
    alloc: Global,
    levels: &[Level],
    labels: usize,
    speakers: &[SpeakerFacts],
    best: &mut Option<Remedy>,
) -> Result<(), AllocError>
    ensures { OnOk result (Offers (flat_map (other_ways (map seen_level levels.now) labels) speakers.now) best.old best.new) }
{
    for speaker in speakers {
        offer_other(alloc, levels, labels, speaker, best)?;
    }
    Ok(())
}

/// Offers that by one of them, where it is whole.
#[tactic(auto, unfolding(crate::specs::Denials::other_ways))]
fn offer_other(
    alloc: Global,
    levels: &[Level],
    labels: usize,
    speaker: &SpeakerFacts,
    best: &mut Option<Remedy>,
) -> Result<(), AllocError>
    ensures { OnOk result (Offers (other_ways (map seen_level levels.now) labels speaker.now) best.old best.new) }
{
    if lacking(alloc, levels, labels, speaker)?.lacks {
        return Ok(());
    }
    offer_speaker(alloc, levels, labels, false, speaker, best)
}
