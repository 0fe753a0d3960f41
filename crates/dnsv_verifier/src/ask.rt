//! Asking a verifier about all of the evidence.

mod made;
mod numbers;
mod places;

ghost use Rattle.std.specs.Prelude.{◌≡◌, ◌↔◌, Contains, IfOk, OnErr, length, map};
ghost use Rattle.std.specs.List.Sorted.{IsStrictlySortedBy};
ghost use Rattle.dnsv_names.specs.Count.{counted};
ghost use Rattle.dnsv_verifier.specs.Admissible.{DnskeyRecord};
ghost use Rattle.dnsv_verifier.specs.Asking.{MadeSignature};
ghost use Rattle.dnsv_verifier.specs.Numbers.{ArePlaces, AreRising, entry_of, key_cmp, part_of_key, signature_cmp};
ghost use Rattle.dnsv_verifier.specs.Table.{IsTableOf};
ghost use Rattle.dnsv_verifier.specs.Within.{IsAskedWithin, IsTableWithin};
ghost use Rattle.dnsv_verifier.specs.declared.entry.Entry.{Entry};

use crate::ask::made::{Made, made_signatures};
use crate::ask::numbers::{entry_numbers, part_numbers};
use crate::ask::places::places_of;
use crate::entry::parts::{EntryNumbers, KeyPart, Parts, SignaturePart};
use crate::key::KeyRecord;
use crate::key::keys::Keys;
use crate::table::Table;
use crate::table::place::SignaturePlace;
use crate::verifier::Verifier;
use bumpalo::Bump;
use dnsv_canonical::{Capture, Rrset};
use dnsv_names::Count;
use dnsv_timeline::Range;
use std::alloc::{AllocError, Global};
use std::rc::Rc;

/// Asks the verifier at the moment, in seconds since 1970, about each signature of the capture under each key that may
/// be used for it (RFC 4035 5.3.1), each distinct entry once.
///
/// The count grows by the number of entries, which are those of the table. A refusal, for want of memory, asks
/// nothing.
pub fn ask_all<'b, V: Verifier>(
    alloc: Global,
    bump: &'b Bump,
    capture: &'b Capture<'b>,
    moment: u64,
    verifier: &V,
    count: &mut Count,
) -> Result<Table<'b>, AllocError>
    ensures table { IfOk result (λ table. IsTableOf (V.meaning verifier.now) moment capture.now.rrsets table) }
    ensures count { IfOk result (λ table. count.new ≡ counted count.old (length table.answers)) }
    ensures refused { OnErr result (count.new ≡ count.old) }
{
    // One moment is a range.
    let Some(range) = Range::new(moment, moment) else {
        unreachable!();
    };
    ask_within(alloc, bump, capture, range, verifier, count)
}

/// Asks the verifier about each signature of the capture under each key that may be used for it at some moment of the
/// range (RFC 4035 5.3.1), each distinct entry once. So of each moment of the range the table says what the verifier
/// does: `Table::at` gives the table of the moment. The table's own moment is the first of the range.
///
/// The count grows by the number of entries, which are those of the table. A refusal, for want of memory, asks
/// nothing.
pub fn ask_within<'b, V: Verifier>(
    alloc: Global,
    bump: &'b Bump,
    capture: &'b Capture<'b>,
    range: Range,
    verifier: &V,
    count: &mut Count,
) -> Result<Table<'b>, AllocError>
    ensures moment { IfOk result (λ table. table.moment ≡ range.from) }
    ensures table { IfOk result (λ table. IsTableWithin (V.meaning verifier.now) range.from range.to capture.now.rrsets
        table) }
    ensures count { IfOk result (λ table. count.new ≡ counted count.old (length table.answers)) }
    ensures refused { OnErr result (count.new ≡ count.old) }
{
    // What is true of every count.
    let _ = count.value();
    let asked = asked_entries(alloc, bump, range, capture.rrsets())?;
    let Asked {
        parts,
        places,
        numbers,
    } = asked;
    let mut answers = Vec::with_capacity(alloc, numbers.len())?;
    let numbers = Rc::new(alloc, numbers)?;
    for each in numbers.iter() {
        let answer = verifier.answer(&parts.entry(*each));
        count.add(1);
        // There is room for all.
        let Ok(()) = answers.push(answer) else {
            unreachable!();
        };
    }
    Ok(Table::new(range.from(), capture, parts, places, numbers, answers))
}

/// The entries that are asked, each once, rising.
#[derive(Drop)]
struct Asked<'b> {
    parts: Parts<'b>,
    /// Where the parts of signatures stand.
    places: &'b [SignaturePlace],
    numbers: Vec<EntryNumbers>,
}

/// The entries that are asked of the RRsets within the range.
fn asked_entries<'b>(
    alloc: Global,
    bump: &'b Bump,
    range: Range,
    rrsets: &'b [Rrset<'b>],
) -> Result<Asked<'b>, AllocError>
    ensures rising { IfOk result (λ asked. AreRising asked.parts asked.numbers.items) }
    ensures places { IfOk result (λ asked. ArePlaces rrsets.now asked.parts asked.places.now) }
    ensures asked { IfOk result (λ asked. (entry : Entry)
        → Contains (map (entry_of asked.parts) asked.numbers.items) entry
        ↔ IsAskedWithin range.from range.to rrsets.now entry) }
{
    let keys = Keys::of(alloc, rrsets)?;
    let made = made_signatures(alloc, bump, range, &keys, rrsets)?;
    let signatures = made.signatures.as_slice();
    let parts = parts_of(bump, keys.as_slice(), signatures)?;
    let found = part_numbers(alloc, signatures, &parts)?;
    let places = places_of(bump, &made, found.as_slice())?;
    let numbers = entry_numbers(alloc, keys.as_slice(), signatures, found.as_slice(), &parts)?;
    Ok(Asked {
        parts,
        places,
        numbers,
    })
}

/// The parts of the entries of these signatures under these keys.
fn parts_of<'b>(
    bump: &'b Bump,
    keys: &[KeyRecord<'b>],
    made: &[Made<'b>],
) -> Result<Parts<'b>, AllocError>
    ensures keys { IfOk result (λ parts. (key : DnskeyRecord) → Contains keys.now key
        → Contains parts.keys (part_of_key key)) }
    ensures made { IfOk result (λ parts. (each : MadeSignature) → Contains made.now each
        → Contains parts.signatures each.part) }
    ensures rising { IfOk result (λ parts. IsStrictlySortedBy key_cmp parts.keys
        × IsStrictlySortedBy signature_cmp parts.signatures) }
{
    let keys = key_parts(bump, keys)?;
    let signatures = signature_parts(bump, made)?;
    Parts::of(keys, signatures)
}

/// What the keys give to their entries.
fn key_parts<'b>(
    bump: &'b Bump,
    keys: &[KeyRecord<'b>],
) -> Result<Vec<KeyPart<'b>, &'b Bump>, AllocError>
    ensures { IfOk result (λ parts. parts.items ≡ map part_of_key keys.now) }
{
    let mut parts = Vec::with_capacity(bump, keys.len())?;
    for key in keys {
        parts.push(key.part())?;
    }
    Ok(parts)
}

/// What the signatures give to their entries.
fn signature_parts<'b>(
    bump: &'b Bump,
    made: &[Made<'b>],
) -> Result<Vec<SignaturePart<'b>, &'b Bump>, AllocError>
    ensures { IfOk result (λ parts. parts.items ≡ map (λ each. each.part) made.now) }
{
    let mut parts = Vec::with_capacity(bump, made.len())?;
    for each in made {
        parts.push(each.part.copied())?;
    }
    Ok(parts)
}
