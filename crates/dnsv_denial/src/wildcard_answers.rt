//! What the records kept for a name show against answers from wildcards, each zone and number of labels asked once.
ghost use Rattle.std.specs.Prelude.{IfOk, IsTrue, List, OnOk};
ghost use Rattle.dnsv_canonical.specs.Rrsets.{ReceivedRrset};
ghost use Rattle.dnsv_chain.specs.Trust.{KeptTrust, SecuredIn};
ghost use Rattle.dnsv_denial.specs.WildcardAnswers.{AreAnswers, IsShown};
ghost use Rattle.dnsv_denial.specs.gathering.Kept.{IsViewOf};
ghost use Rattle.dnsv_denial.specs.proving.FirstProof.{CanProveNoCloser};
ghost use Rattle.dnsv_denial.specs.unsigned_cuts.Cuts.{HasOptedOutNextCloser};

use crate::gathering::zone_records::ZoneRecords;
use crate::proving::first_proof::no_closer;
use crate::unsigned_cuts::kept_cuts::opted_out_next_closer;
use dnsv_canonical::{Capture, Rrset, is_expanded};
use dnsv_chain::Trust;
use dnsv_names::{Name, RecordType};
use dnsv_proof_forms::NameHashes;
use std::alloc::{AllocError, Global};
use std::collections::BTreeMap;

/// What is shown of an answer of a zone from the wildcard below so many of the name's rightmost labels.
#[derive(Clone, Copy, Drop)]
pub struct Shown {
    /// That no closer name exists (RFC 4035 5.3.4, RFC 5155 8.8).
    pub no_closer: bool,
    /// That Opt-Out may leave out a delegation at the next closer name (RFC 5155 8.8).
    pub opted_out: bool,
}

/// What is shown, by how many labels the zone has, which is at or above the name, and how many the wildcard's parent has.
pub type WildcardAnswers = BTreeMap<(usize, usize), Shown>;

/// What is shown of the answers that the capture has from wildcards to the name, of these types, by signatures that are
/// secured. Several may be of one zone and number of labels; the records are asked once for these.
pub fn wildcard_answers(
    alloc: Global,
    capture: &Capture<'_>,
    trust: &Trust<'_>,
    name: &Name,
    types: &[RecordType],
    zones: &[ZoneRecords<'_, '_>],
    sets: &[NameHashes<'_>],
) -> Result<WildcardAnswers, AllocError>
    requires { IsViewOf (SecuredIn trust.now) capture.now.rrsets name.now sets.now zones.now }
    ensures { IfOk result (AreAnswers (SecuredIn trust.now) capture.now.rrsets name.now) }
{
    let mut answers = BTreeMap::new(alloc);
    for rtype in types {
        let numbers = capture.at(name, *rtype);
        add_numbered(capture, trust, name, numbers, zones, sets, &mut answers)?;
    }
    Ok(answers)
}

/// Adds what is shown of the RRsets with these numbers, which the name owns.
fn add_numbered(
    capture: &Capture<'_>,
    trust: &Trust<'_>,
    name: &Name,
    numbers: &[usize],
    zones: &[ZoneRecords<'_, '_>],
    sets: &[NameHashes<'_>],
    answers: &mut WildcardAnswers,
) -> Result<(), AllocError>
    requires { (trust : KeptTrust) × (rrsets : List ReceivedRrset)
        × IsViewOf (SecuredIn trust) rrsets name.now sets.now zones.now }
    ensures { OnOk result ((trust : KeptTrust) (rrsets : List ReceivedRrset)
        → IsViewOf (SecuredIn trust) rrsets name.now sets.now zones.now
        → AreAnswers (SecuredIn trust) rrsets name.now answers.old
        → AreAnswers (SecuredIn trust) rrsets name.now answers.new) }
{
    for number in numbers {
        let Some(rrset) = capture.rrset(*number) else {
            continue;
        };
        let secured = trust.signed(*number);
        add_answers(rrset, secured, name, zones, sets, answers)?;
    }
    Ok(())
}

/// Adds what is shown of the RRset by its signatures with these numbers, from 1 on, unless that is there.
fn add_answers(
    rrset: &Rrset<'_>,
    secured: &[usize],
    name: &Name,
    zones: &[ZoneRecords<'_, '_>],
    sets: &[NameHashes<'_>],
    answers: &mut WildcardAnswers,
) -> Result<(), AllocError>
    requires { (trust : KeptTrust) × (rrsets : List ReceivedRrset)
        × IsViewOf (SecuredIn trust) rrsets name.now sets.now zones.now }
    ensures { OnOk result ((trust : KeptTrust) (rrsets : List ReceivedRrset)
        → IsViewOf (SecuredIn trust) rrsets name.now sets.now zones.now
        → AreAnswers (SecuredIn trust) rrsets name.now answers.old
        → AreAnswers (SecuredIn trust) rrsets name.now answers.new) }
{
    for (place, rrsig) in rrset.signatures().iter().enumerate() {
        let zone = &rrsig.signer.to_name();
        let labels = rrsig.labels as usize;
        if !secured.contains(&(place + 1)) || !is_expanded(rrset.owner(), rrsig) {
            continue;
        }
        if !name.is_at_or_below(zone) || answers.contains_key(&(zone.labels(), labels)) {
            continue;
        }
        let shown = shown_by_records(name, zone, labels, zones, sets);
        answers.insert((zone.labels(), labels), shown)?;
    }
    Ok(())
}

/// What the records show of an answer of the zone from the wildcard below so many of the name's rightmost labels.
fn shown_by_records(
    name: &Name,
    zone: &Name,
    labels: usize,
    zones: &[ZoneRecords<'_, '_>],
    sets: &[NameHashes<'_>],
) -> Shown
    requires { (trust : KeptTrust) × (rrsets : List ReceivedRrset)
        × IsViewOf (SecuredIn trust) rrsets name.now sets.now zones.now }
    ensures { (trust : KeptTrust) (rrsets : List ReceivedRrset)
        → IsViewOf (SecuredIn trust) rrsets name.now sets.now zones.now
        → IsShown (SecuredIn trust) rrsets name.now labels zone.now result }
{
    Shown {
        no_closer: no_closer(name, zone, labels, zones, sets).is_some(),
        opted_out: opted_out_next_closer(name, zone, labels, zones, sets).is_some(),
    }
}

/// Whether the answers say that no proof has it that no closer name exists.
pub fn may_have_closer(answers: &WildcardAnswers, name: &Name, zone: &Name, labels: usize) -> bool
    ensures { IsTrue result → (trust : KeptTrust) (rrsets : List ReceivedRrset)
        → AreAnswers (SecuredIn trust) rrsets name.now answers.now
        → ¬ CanProveNoCloser (SecuredIn trust) rrsets name.now labels zone.now }
{
    if !name.is_at_or_below(zone) {
        return false;
    }
    match answers.get(&(zone.labels(), labels)) {
        Some(shown) => !shown.no_closer,
        None => false,
    }
}

/// Whether the answers say that Opt-Out leaves out no delegation at the next closer name.
pub fn is_not_opted_out(answers: &WildcardAnswers, name: &Name, zone: &Name, labels: usize) -> bool
    ensures { IsTrue result → (trust : KeptTrust) (rrsets : List ReceivedRrset)
        → AreAnswers (SecuredIn trust) rrsets name.now answers.now
        → ¬ HasOptedOutNextCloser (SecuredIn trust) rrsets name.now labels zone.now }
{
    if !name.is_at_or_below(zone) {
        return false;
    }
    match answers.get(&(zone.labels(), labels)) {
        Some(shown) => !shown.opted_out,
        None => false,
    }
}
