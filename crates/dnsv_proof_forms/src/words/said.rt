//! What the records of a chain say of the names that a question asks for: of each word, the first record.
ghost use Rattle.std.specs.Prelude.{◌↔◌, ◌≤◌, ℕ, IsTrue, length};
ghost use Rattle.dnsv_names.specs.Name.{Labels, rightmost};
ghost use Rattle.dnsv_zones.specs.forms.RecordWords.{words};
ghost use Rattle.dnsv_proof_forms.specs.words.Asked.{asked_name, IsWithin, said_types};
ghost use Rattle.dnsv_proof_forms.specs.words.ChainSaid.{chain_said, HasHashes};
ghost use Rattle.dnsv_proof_forms.specs.words.SaidAt.{IsFirstPlace};

use crate::records::chain_records::ChainRecords;
use crate::words::asked::{AskedName, AskedTypes};
use crate::words::nsec::{Absent, EmptyNonTerminal, Node, Owner};
use crate::words::nsec3::{first_cover, first_match};
use crate::words::search::first_to_say;
use dnsv_names::Name;

/// Whether the question's so many rightmost labels are a node, though no record says so: they are the zone's apex,
/// and the records are NSEC records.
pub fn needs_none(apex: &Name, name: &Name, labels: usize, records: &ChainRecords<'_>) -> bool
    requires { labels ≤ length name.now }
    ensures { IsTrue result ↔ (chain_said apex.now records.now).NeedsNone (rightmost name.now labels) }
{
    match records {
        ChainRecords::Nsec(_) => name.suffix(labels) == *apex,
        ChainRecords::Nsec3(_) => false,
    }
}

/// The place of the first record that shows the question's so many rightmost labels to be a node above it.
pub fn encloser(name: &Name, labels: usize, records: &ChainRecords<'_>) -> Option<usize>
    requires within { labels ≤ length name.now }
    requires hashes { HasHashes name.now records.now }
    ensures { (apex : Labels)
        → IsFirstPlace ((chain_said apex records.now).Encloser (rightmost name.now labels)) result }
{
    match records {
        ChainRecords::Nsec(entries) => {
            let encloser = name.suffix(labels);
            first_to_say(&Node(&encloser), entries)
        }
        ChainRecords::Nsec3(hashed) => first_match(
            hashed,
            AskedName::Above(labels),
            AskedTypes::Open,
        ),
    }
}

/// The place of the first record that shows the asked name to be no node.
pub fn absent(name: &Name, asked: AskedName, records: &ChainRecords<'_>) -> Option<usize>
    requires within { IsWithin name.now asked }
    requires hashes { HasHashes name.now records.now }
    ensures { (apex : Labels)
        → IsFirstPlace ((chain_said apex records.now).Absent (asked_name name.now asked)) result }
{
    match records {
        ChainRecords::Nsec(entries) => {
            let absent = asked.of(name);
            first_to_say(&Absent(&absent), entries)
        }
        ChainRecords::Nsec3(hashed) => first_cover(hashed, asked, false),
    }
}

/// The place of the first record that shows the asked name to be an empty non-terminal. NSEC3 records have an owner
/// for each of these (RFC 5155 7.1).
pub fn empty_non_terminal(
    name: &Name,
    asked: AskedName,
    records: &ChainRecords<'_>,
) -> Option<usize>
    requires within { IsWithin name.now asked }
    ensures { (apex : Labels)
        → IsFirstPlace ((chain_said apex records.now).EmptyNonTerminal (asked_name name.now asked)) result }
{
    match records {
        ChainRecords::Nsec(entries) => {
            let empty_non_terminal = asked.of(name);
            first_to_say(&EmptyNonTerminal(&empty_non_terminal), entries)
        }
        ChainRecords::Nsec3(_) => None,
    }
}

/// The place of the first record that shows the types at the asked name to be such.
pub fn types_at(
    name: &Name,
    asked: AskedName,
    types: AskedTypes,
    records: &ChainRecords<'_>,
) -> Option<usize>
    requires within { IsWithin name.now asked }
    requires hashes { HasHashes name.now records.now }
    ensures { (apex : Labels)
        → IsFirstPlace ((chain_said apex records.now).TypesAt (asked_name name.now asked) (said_types types)) result }
{
    match records {
        ChainRecords::Nsec(entries) => {
            let owner = asked.of(name);
            first_to_say(
                &Owner {
                    name: &owner,
                    types,
                },
                entries,
            )
        }
        ChainRecords::Nsec3(hashed) => first_match(hashed, asked, types),
    }
}

/// The place of the first record with the Opt-Out flag that covers the hash of the asked name (RFC 5155 6).
pub fn opted_out(name: &Name, asked: AskedName, records: &ChainRecords<'_>) -> Option<usize>
    requires within { IsWithin name.now asked }
    requires hashes { HasHashes name.now records.now }
    ensures { (apex : Labels)
        → IsFirstPlace ((chain_said apex records.now).OptedOut (asked_name name.now asked)) result }
{
    match records {
        ChainRecords::Nsec(_) => None,
        ChainRecords::Nsec3(hashed) => first_cover(hashed, asked, true),
    }
}

/// Whether the question's so many rightmost labels are shown to be a node above it, or need no record for that.
pub fn has_encloser(apex: &Name, name: &Name, labels: usize, records: &ChainRecords<'_>) -> bool
    requires within { labels ≤ length name.now }
    requires hashes { HasHashes name.now records.now }
    ensures { IsTrue result ↔ (words (chain_said apex.now records.now)).Encloser (rightmost name.now labels) }
{
    if needs_none(apex, name, labels, records) {
        return true;
    }
    encloser(name, labels, records).is_some()
}

/// Whether some record shows the asked name to be no node.
pub fn is_absent(name: &Name, asked: AskedName, records: &ChainRecords<'_>) -> bool
    requires within { IsWithin name.now asked }
    requires hashes { HasHashes name.now records.now }
    ensures { (apex : Labels)
        → IsTrue result ↔ (words (chain_said apex records.now)).Absent (asked_name name.now asked) }
{
    absent(name, asked, records).is_some()
}

/// Whether some record with the Opt-Out flag covers the hash of the asked name (RFC 5155 6).
pub fn is_opted_out(name: &Name, asked: AskedName, records: &ChainRecords<'_>) -> bool
    requires within { IsWithin name.now asked }
    requires hashes { HasHashes name.now records.now }
    ensures { (apex : Labels)
        → IsTrue result ↔ ((place : ℕ) × (chain_said apex records.now).OptedOut (asked_name name.now asked) place) }
{
    opted_out(name, asked, records).is_some()
}

/// Whether some record shows the types at the asked name to be such.
pub fn has_types(
    name: &Name,
    asked: AskedName,
    types: AskedTypes,
    records: &ChainRecords<'_>,
) -> bool
    requires within { IsWithin name.now asked }
    requires hashes { HasHashes name.now records.now }
    ensures { (apex : Labels) → IsTrue result
        ↔ (words (chain_said apex records.now)).TypesAt (asked_name name.now asked) (said_types types) }
{
    types_at(name, asked, types, records).is_some()
}
