//! The zone keys that a signature names.
ghost use Rattle.std.specs.Prelude.{IfOk, OnOk};
ghost use Rattle.std.specs.Option.{option_map};
ghost use Rattle.dnsv_chain.specs.Basis.{basis_by};
ghost use Rattle.dnsv_verifier.specs.Asking.{GivesEach, GivesMore};
ghost use Rattle.dnsv_verifier.specs.Table.{table_answer};
ghost use Rattle.dnsv_zone_keys.specs.Answers.AnswerSearch.{ArePutInOrder, IsAskedOf, IsSaidOf};
ghost use Rattle.dnsv_zone_keys.specs.Keys.KeySearch.{AreNamedOf};
ghost use Rattle.dnsv_zone_keys.specs.Keys.{IsZoneKey};
ghost use Rattle.dnsv_faults.specs.Signatures.{AreNamedKeys};

use crate::case_facts::CaseFacts;
use dnsv_canonical::Rrset;
use dnsv_mending::NamedKey;
use dnsv_records::Rrsig;
use dnsv_verifier::Table;
use dnsv_zone_keys::{PlacedKey, answer_under, asked_octets, is_zone_key};
use std::alloc::{AllocError, Global};

/// The zone keys that the signature of the RRset names, each once and by its place among those of the signer, with the
/// answer under it: those of the keys that it names.
pub fn named_keys(
    alloc: Global,
    facts: &CaseFacts<'_>,
    rrset: &Rrset<'_>,
    rrsig: &Rrsig<'_>,
    named: &[PlacedKey<'_>],
) -> Result<Vec<NamedKey>, AllocError>
    requires { AreNamedOf facts.now.rrsets rrsig.now named.now }
    ensures { IfOk result (λ keys. AreNamedKeys (basis_by facts.now) rrset.now rrsig.now keys.items) }
{
    let table = facts.table();
    let octets = asked_octets(alloc, table.moment(), rrset, rrsig)?;
    let mut keys = answered_keys(alloc, table, named, rrset, rrsig, &octets)?;
    put_in_order(&mut keys);
    Ok(keys)
}

/// Those of the keys that a zone may sign with, with what the verifier says under each.
fn answered_keys(
    alloc: Global,
    table: &Table<'_>,
    keys: &[PlacedKey<'_>],
    rrset: &Rrset<'_>,
    rrsig: &Rrsig<'_>,
    octets: &Option<Vec<u8>>,
) -> Result<Vec<NamedKey>, AllocError>
    requires { IsAskedOf table.now.moment rrset.now rrsig.now (option_map (λ each. each.items) octets.now) }
    ensures { IfOk result (λ named. GivesEach (IsSaidOf (table_answer table.now) table.now.moment rrset.now rrsig.now)
        (λ placed. IsZoneKey placed.key) keys.now named.items) }
{
    let mut named = Vec::new(alloc);
    for placed in keys {
        add_answered(table, placed, rrset, rrsig, octets, &mut named)?;
    }
    Ok(named)
}

/// Adds the key, if it is such a one.
fn add_answered(
    table: &Table<'_>,
    placed: &PlacedKey<'_>,
    rrset: &Rrset<'_>,
    rrsig: &Rrsig<'_>,
    octets: &Option<Vec<u8>>,
    named: &mut Vec<NamedKey>,
) -> Result<(), AllocError>
    requires { IsAskedOf table.now.moment rrset.now rrsig.now (option_map (λ each. each.items) octets.now) }
    ensures { OnOk result (GivesMore (IsSaidOf (table_answer table.now) table.now.moment rrset.now rrsig.now)
        (λ each. IsZoneKey each.key) placed.now named.old.items named.new.items) }
{
    if !is_zone_key(placed.key()) {
        return Ok(());
    }
    named.push(NamedKey {
        key: placed.place(),
        answer: answer_under(table, rrset, rrsig, octets, placed.key()),
    })?;
    Ok(())
}

/// Puts the keys in the order of their places, of those with one place one.
fn put_in_order(named: &mut Vec<NamedKey>)
    ensures { ArePutInOrder (λ each. each.key) named.old.items named.new.items }
{
    named.sort_unstable_by(|a, b| a.key.cmp(&b.key));
    named.dedup_by_key(|each| each.key);
}
