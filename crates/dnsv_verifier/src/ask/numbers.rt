//! The entries of signatures under keys, by the numbers of their parts.
ghost use Rattle.std.specs.Prelude.{◌≡◌, ◌↔◌, ◌<◌, [], Contains, IfOk, OnOk, length, map};
ghost use Rattle.std.specs.List.{AllZip};
ghost use Rattle.std.specs.List.Sorted.{IsSortedByKey, IsStrictlySortedBy};
ghost use Rattle.dnsv_verifier.specs.Admissible.{DnskeyRecord};
ghost use Rattle.dnsv_verifier.specs.Asking.{AddsJust, CanSign, ComesOfSome, GivesEach, GivesMore, IsAny, IsEntryOfMade, MadeSignature, key_name_cmp};
ghost use Rattle.dnsv_verifier.specs.Numbers.{AllOfParts, IsNumberedKey, IsNumberedSignature, IsPairIn, IsPairOf, IsPartNumber, PartLists, entry_of, numbers_cmp, part_of_key};
ghost use Rattle.dnsv_verifier.specs.declared.entry.parts.EntryNumbers.{EntryNumbers};

use crate::ask::made::Made;
use crate::entry::parts::{EntryNumbers, Parts};
use crate::key::KeyRecord;
use crate::key::numbered::{Numbered, with_name};
use std::alloc::{AllocError, Global};

/// The number of what each of the signatures gives to its entries.
pub(crate) fn part_numbers(
    alloc: Global,
    made: &[Made<'_>],
    parts: &Parts<'_>,
) -> Result<Vec<u32>, AllocError>
    requires { (each : MadeSignature) → Contains made.now each → Contains parts.now.signatures each.part }
    ensures { IfOk result (λ found. AllZip (IsPartNumber parts.now) made.now found.items) }
{
    let mut found = Vec::with_capacity(alloc, made.len())?;
    for each in made {
        found.push(parts.signature_number(&each.part))?;
    }
    Ok(found)
}

/// The numbers of the entries that the signatures have under the keys, each entry once, rising. The parts of the
/// signatures have the numbers that were found.
pub(crate) fn entry_numbers(
    alloc: Global,
    keys: &[KeyRecord<'_>],
    made: &[Made<'_>],
    found: &[u32],
    parts: &Parts<'_>,
) -> Result<Vec<EntryNumbers>, AllocError>
    requires keys { (key : DnskeyRecord) → Contains keys.now key → Contains parts.now.keys (part_of_key key) }
    requires found { AllZip (IsPartNumber parts.now) made.now found.now }
    ensures adds { IfOk result (λ numbers. AddsJust (ComesOfSome (IsEntryOfMade keys.now) made.now) []
        (map (entry_of parts.now) numbers.items)) }
    ensures all { IfOk result (λ numbers. AllOfParts parts.now numbers.items) }
    ensures rising { IfOk result (λ numbers. IsStrictlySortedBy numbers_cmp numbers.items) }
{
    let keys = numbered_keys(alloc, keys, parts)?;
    let signatures = numbered_signatures(alloc, made, found)?;
    pairs(alloc, keys.as_slice(), signatures.as_slice())
}

/// The keys that can sign, by rising numbers, so that the entries under them come nearly in order.
fn numbered_keys<'a>(
    alloc: Global,
    keys: &[KeyRecord<'a>],
    parts: &Parts<'_>,
) -> Result<Vec<Numbered<'a>>, AllocError>
    requires { (key : DnskeyRecord) → Contains keys.now key → Contains parts.now.keys (part_of_key key) }
    ensures { IfOk result (λ numbered. GivesEach (IsNumberedKey parts.now) CanSign keys.now numbered.items) }
{
    let mut numbered = Vec::new(alloc);
    for key in keys {
        add_key(key, parts, &mut numbered)?;
    }
    numbered.sort_unstable_by(|a, b| a.number().cmp(&b.number()));
    Ok(numbered)
}

/// Adds the key if it can sign.
fn add_key<'a>(
    key: &KeyRecord<'a>,
    parts: &Parts<'_>,
    numbered: &mut Vec<Numbered<'a>>,
) -> Result<(), AllocError>
    requires { Contains parts.now.keys (part_of_key key.now) }
    ensures { OnOk result (GivesMore (IsNumberedKey parts.now) CanSign key.now numbered.old.items numbered.new.items) }
{
    if !key.can_sign() {
        return Ok(());
    }
    numbered.push(key.with_number(key.number_in(parts)))?;
    Ok(())
}

/// The signatures by what they name keys by, those that name the same by rising numbers.
fn numbered_signatures<'a>(
    alloc: Global,
    made: &[Made<'a>],
    found: &[u32],
) -> Result<Vec<Numbered<'a>>, AllocError>
    requires { length found.now ≡ length made.now }
    ensures are { (parts : PartLists) → AllZip (IsPartNumber parts) made.now found.now
        → IfOk result (λ numbered. GivesEach (IsNumberedSignature parts) IsAny made.now numbered.items) }
    ensures sorted { IfOk result (λ numbered. IsSortedByKey (λ each. each.name) key_name_cmp numbered.items) }
{
    let mut numbered = Vec::new(alloc);
    for (place, each) in made.iter().enumerate() {
        add_signature(each, found[place], &mut numbered)?;
    }
    numbered.sort_unstable_by(|a, b| a.number().cmp(&b.number()));
    numbered.sort_by(|a, b| a.stands_to(b))?;
    Ok(numbered)
}

/// Adds the signature with the number.
fn add_signature<'a>(
    made: &Made<'a>,
    number: u32,
    numbered: &mut Vec<Numbered<'a>>,
) -> Result<(), AllocError>
    ensures { OnOk result ((parts : PartLists) → IsPartNumber parts made.now number
        → GivesMore (IsNumberedSignature parts) IsAny made.now numbered.old.items numbered.new.items) }
{
    numbered.push(made.with_number(number))?;
    Ok(())
}

/// The pairs of a key and a signature that names it, each once, rising.
fn pairs(
    alloc: Global,
    keys: &[Numbered<'_>],
    signatures: &[Numbered<'_>],
) -> Result<Vec<EntryNumbers>, AllocError>
    requires { IsSortedByKey (λ each. each.name) key_name_cmp signatures.now }
    ensures adds { IfOk result (λ pairs. AddsJust (ComesOfSome (IsPairIn signatures.now) keys.now) [] pairs.items) }
    ensures rising { IfOk result (λ pairs. IsStrictlySortedBy numbers_cmp pairs.items) }
{
    let mut numbers = Vec::new(alloc);
    let mut distinct = 0;
    for key in keys {
        add_pairs(key, signatures, &mut numbers)?;
        distinct = drop_repeats(&mut numbers, distinct);
    }
    put_in_order(&mut numbers);
    Ok(numbers)
}

/// Drops repeats once there may be more of them than of the entries that were distinct before, so that a message which
/// comes again and again takes little memory. The answer is how many are known to be distinct.
fn drop_repeats(numbers: &mut Vec<EntryNumbers>, distinct: usize) -> usize
    ensures { (each : EntryNumbers) → Contains numbers.new.items each ↔ Contains numbers.old.items each }
{
    if numbers.len() / 2 <= distinct {
        return distinct;
    }
    put_in_order(numbers);
    numbers.len()
}

/// Puts the numbers in order, each entry's once.
fn put_in_order(numbers: &mut Vec<EntryNumbers>)
    ensures rising { IsStrictlySortedBy numbers_cmp numbers.new.items }
    ensures same { (each : EntryNumbers) → Contains numbers.new.items each ↔ Contains numbers.old.items each }
{
    numbers.sort_unstable();
    numbers.dedup();
}

/// Adds the pairs of the key.
fn add_pairs(
    key: &Numbered<'_>,
    signatures: &[Numbered<'_>],
    numbers: &mut Vec<EntryNumbers>,
) -> Result<(), AllocError>
    requires { IsSortedByKey (λ each. each.name) key_name_cmp signatures.now }
    ensures { OnOk result (AddsJust (IsPairIn signatures.now key.now) numbers.old.items numbers.new.items) }
{
    push_pairs(key.number(), with_name(signatures, key), numbers)
}

/// Adds the pairs of the key with this number and each of the signatures.
fn push_pairs(
    key: u32,
    signatures: &[Numbered<'_>],
    numbers: &mut Vec<EntryNumbers>,
) -> Result<(), AllocError>
    ensures { OnOk result (AddsJust (ComesOfSome (IsPairOf key) signatures.now) numbers.old.items numbers.new.items) }
{
    for each in signatures {
        let signature = each.number();
        numbers.push(EntryNumbers { key, signature })?;
    }
    Ok(())
}
