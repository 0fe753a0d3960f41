//! The signatures of a DNSKEY RRset, and under which keys in it they are good.
ghost use Rattle.std.specs.Prelude.{◌↔◌, IfOk, IsSortedByKey, IsTrue, OnOk};
ghost use Rattle.std.specs.Option.{option_map};
ghost use Rattle.dnsv_canonical.specs.Canonical.{rdata_cmp};
ghost use Rattle.dnsv_verifier.specs.Admissible.{IsGood};
ghost use Rattle.dnsv_verifier.specs.Asking.{GivesMore};
ghost use Rattle.dnsv_verifier.specs.Table.{table_answer};
ghost use Rattle.dnsv_zone_keys.specs.Answers.AnswerSearch.{IsAskedOf};
ghost use Rattle.dnsv_zone_faults.specs.Dnskeys.DnskeySearch.{AreKeyRecords, AreKeysIn, AreOwn, HasFound, IsFoundPlace, IsOwnOf, IsSomeSet, basis_in, rdata_of};
ghost use Rattle.dnsv_faults.specs.Signatures.{IsSignatureAt};
ghost use Rattle.dnsv_zone_keys.specs.Vouchers.VoucherSearch.{ArePlacesOf};

use crate::zone::dnskeys::tagged::{OwnSignature, OwnSignatures};
use crate::zone::keyed::{KeyedZone, find};
use crate::zone::places::Places;
use dnsv_canonical::Rrset;
use dnsv_mending::KeyAnswer;
use dnsv_records::Rrsig;
use dnsv_verifier::Table;
use dnsv_zone_keys::{PlacedKey, answer_under, asked_octets};
use std::alloc::{AllocError, Global};

/// The signatures of the DNSKEY RRset, which has these keys.
pub fn own_signatures<'a>(
    alloc: Global,
    keyed: &KeyedZone<'_>,
    rrset: &'a Rrset<'a>,
    keys: &[PlacedKey<'_>],
) -> Result<OwnSignatures<'a>, AllocError>
    requires set { IsSomeSet keyed.now.facts.now.rrsets keyed.now.zone.now rrset.now }
    requires keys { AreKeysIn keyed.now.facts.now.rrsets keyed.now.zone.now rrset.now keys.now }
    ensures { IfOk result (AreOwn (basis_in keyed.now) rrset.now keys.now) }
{
    let mut own = Vec::new(alloc);
    for (place, rrsig) in rrset.signatures().iter().enumerate() {
        own.push(own_signature(alloc, keyed, rrset, keys, place + 1, rrsig)?)?;
    }
    Ok(OwnSignatures::of(own))
}

/// The signature with the number.
fn own_signature<'a>(
    alloc: Global,
    keyed: &KeyedZone<'_>,
    rrset: &Rrset<'_>,
    keys: &[PlacedKey<'_>],
    number: usize,
    rrsig: &'a Rrsig<'a>,
) -> Result<OwnSignature<'a>, AllocError>
    requires set { IsSomeSet keyed.now.facts.now.rrsets keyed.now.zone.now rrset.now }
    requires keys { AreKeysIn keyed.now.facts.now.rrsets keyed.now.zone.now rrset.now keys.now }
    requires its { IsSignatureAt rrset.now number rrsig.now }
    ensures { IfOk result (IsOwnOf (basis_in keyed.now) rrset.now keys.now number rrsig.now) }
{
    let octets = asked_octets(alloc, keyed.facts.table().moment(), rrset, rrsig)?;
    let good = good_places(alloc, keyed, rrset, keys, rrsig, &octets)?;
    Ok(OwnSignature {
        number,
        rrsig,
        octets,
        good,
    })
}

/// The places of the keys in the RRset under which the signature is good.
fn good_places(
    alloc: Global,
    keyed: &KeyedZone<'_>,
    rrset: &Rrset<'_>,
    keys: &[PlacedKey<'_>],
    rrsig: &Rrsig<'_>,
    octets: &Option<Vec<u8>>,
) -> Result<Places, AllocError>
    requires set { IsSomeSet keyed.now.facts.now.rrsets keyed.now.zone.now rrset.now }
    requires keys { AreKeysIn keyed.now.facts.now.rrsets keyed.now.zone.now rrset.now keys.now }
    requires asked { IsAskedOf keyed.now.facts.now.table.moment rrset.now rrsig.now (option_map (λ each. each.items) octets.now) }
    ensures { IfOk result (λ places. ArePlacesOf keys.now
        (IsGood (basis_in keyed.now).meaning (basis_in keyed.now).moment rrset.now rrsig.now) places) }
{
    let table = keyed.facts.table();
    let mut places = Vec::new(alloc);
    for named in keyed.facts.named_by(rrsig) {
        add_good(table, rrset, keys, rrsig, octets, named, &mut places)?;
    }
    Ok(Places::of(places))
}

/// Adds the place of the key in the RRset with the RDATA of the one that is named, if the signature is good under it.
fn add_good(
    table: &Table<'_>,
    rrset: &Rrset<'_>,
    keys: &[PlacedKey<'_>],
    rrsig: &Rrsig<'_>,
    octets: &Option<Vec<u8>>,
    named: &PlacedKey<'_>,
    places: &mut Vec<usize>,
) -> Result<(), AllocError>
    requires sorted { IsSortedByKey rdata_of rdata_cmp keys.now }
    requires same { AreKeyRecords keys.now }
    requires asked { IsAskedOf table.now.moment rrset.now rrsig.now (option_map (λ each. each.items) octets.now) }
    ensures { OnOk result (GivesMore (IsFoundPlace keys.now (IsGood (table_answer table.now) table.now.moment rrset.now rrsig.now))
        (HasFound keys.now (IsGood (table_answer table.now) table.now.moment rrset.now rrsig.now)) named.now places.old.items places.new.items) }
{
    let Some(own) = find(keys, named.key().rdata()) else {
        return Ok(());
    };
    if !is_good_under(table, rrset, rrsig, octets, own) {
        return Ok(());
    }
    places.push(own.place())?;
    Ok(())
}

/// Whether the signature is good under the key.
fn is_good_under(
    table: &Table<'_>,
    rrset: &Rrset<'_>,
    rrsig: &Rrsig<'_>,
    octets: &Option<Vec<u8>>,
    placed: &PlacedKey<'_>,
) -> bool
    requires { IsAskedOf table.now.moment rrset.now rrsig.now (option_map (λ each. each.items) octets.now) }
    ensures { IsTrue result ↔ IsGood (table_answer table.now) table.now.moment rrset.now rrsig.now placed.now.key }
{
    match answer_under(table, rrset, rrsig, octets, placed.key()) {
        KeyAnswer::Good => true,
        KeyAnswer::Bad => false,
        KeyAnswer::Unanswered => false,
    }
}
