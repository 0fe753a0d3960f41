//! What the lines of a file of statements say, kept as it is read.
//!
//! While each line is of an entry behind the last, a vector has what was said, which rises. Once one isn't, a tree has what
//! is said from there on, and at the end all of it.
ghost use Rattle.std.specs.Prelude.{◌≡◌, ◌≢◌, ◌++◌, ◌<◌, None, [], IfErr, IfOk, IsTrue, OnErr, OnOk, length, map};
ghost use Rattle.std.specs.List.Sorted.{IsStrictlySortedBy};
ghost use Rattle.dnsv_verifier.specs.Entry.{entry_cmp};
ghost use Rattle.dnsv_statements.specs.Statements.{other_word};
ghost use Rattle.dnsv_statements.specs.StatementsReading.{AddsStatement, IsBehind, Lists, RefusesEntry, RefusesLine, said_in};
ghost use Rattle.dnsv_verifier.specs.declared.entry.Entry.{Entry};

use crate::packed_entry::PackedEntry;
use crate::statements::StatementsError;
use crate::statements::statement::{Word, statement_of};
use dnsv_names::Line;
use dnsv_verifier::Entry;
use std::alloc::{AllocError, Global};
use std::cmp::Ordering;
use std::collections::BTreeMap;

/// Adds what a line states, unless something else was said.
pub(crate) fn add(
    alloc: Global,
    rising: &mut Vec<(PackedEntry, Word)>,
    tree: &mut BTreeMap<PackedEntry, Word>,
    line: &Line,
) -> Result<(), StatementsError>
    requires { IsStrictlySortedBy entry_cmp (map (λ each. each.0) rising.old.items) }
    ensures adds { OnOk result (AddsStatement line.now.octets (rising.old.items ++ tree.old.entries)
        (rising.new.items ++ tree.new.entries)) }
    ensures rising { OnOk result (IsStrictlySortedBy entry_cmp (map (λ each. each.0) rising.new.items)) }
    ensures refuses { IfErr result (λ error. RefusesLine error line.now (rising.old.items ++ tree.old.entries)) }
{
    let Some((entry, word)) = statement_of(alloc, line)? else {
        return Err(StatementsError::Syntax(line.number()));
    };
    list(rising, tree, entry, word, line.number())
}

/// Lists an entry of the line of this number by its word. Where it is listed by the other one, that is reported; memory is
/// asked for only where it isn't listed.
fn list(
    rising: &mut Vec<(PackedEntry, Word)>,
    tree: &mut BTreeMap<PackedEntry, Word>,
    entry: PackedEntry,
    word: Word,
    number: usize,
) -> Result<(), StatementsError>
    requires { IsStrictlySortedBy entry_cmp (map (λ each. each.0) rising.old.items) }
    ensures lists { OnOk result (Lists entry word (rising.old.items ++ tree.old.entries)
        (rising.new.items ++ tree.new.entries)) }
    ensures rising { OnOk result (IsStrictlySortedBy entry_cmp (map (λ each. each.0) rising.new.items)) }
    ensures refuses { IfErr result (λ error. RefusesEntry error number entry word
        (rising.old.items ++ tree.old.entries)) }
{
    if tree.len() == 0 && is_behind(rising, &entry) {
        rising.push((entry, word))?;
        return Ok(());
    }
    if put(rising, tree, entry, word)? == Some(word.other()) {
        return Err(StatementsError::Contradiction(number));
    }
    Ok(())
}

/// The word by which the entry is listed already; where it isn't, the tree lists it by this one.
fn put(
    rising: &[(PackedEntry, Word)],
    tree: &mut BTreeMap<PackedEntry, Word>,
    entry: PackedEntry,
    word: Word,
) -> Result<Option<Word>, AllocError>
    requires { IsStrictlySortedBy entry_cmp (map (λ each. each.0) rising.now) }
    ensures listed { IfOk result (λ listed. listed ≡ said_in (rising.now ++ tree.old.entries) entry) }
    ensures lists { IfOk result (λ listed. listed ≢ Some (other_word word)
        → Lists entry word (rising.now ++ tree.old.entries) (rising.now ++ tree.new.entries)) }
    ensures refused { OnErr result (said_in (rising.now ++ tree.old.entries) entry ≡ None) }
{
    if let Some(listed) = said_word(rising, &entry.entry()) {
        return Ok(Some(listed));
    }
    Ok(tree.insert(entry, word)?)
}

/// The word by which the entry is listed among those, which rise; looked up by halves.
pub(crate) fn said_word(listed: &[(PackedEntry, Word)], entry: &Entry<'_>) -> Option<Word>
    requires { IsStrictlySortedBy entry_cmp (map (λ each. each.0) listed.now) }
    ensures { result ≡ said_in listed.now entry.now }
{
    let place = listed.binary_search_by(|(said, _)| said.entry().stands_to(entry));
    match place {
        Ok(place) => Some(listed[place].1),
        Err(_) => None,
    }
}

/// Whether the entry is behind the last of those that are listed.
fn is_behind(listed: &[(PackedEntry, Word)], entry: &PackedEntry) -> bool
    ensures { IsTrue result → IsBehind (map (λ each. each.0) listed.now) entry.now }
{
    let count = listed.len();
    if count == 0 {
        return true;
    }
    listed[count - 1].0.entry().stands_to(&entry.entry()) == Ordering::Less
}

/// Moves all to the tree.
fn gather(
    rising: &mut Vec<(PackedEntry, Word)>,
    tree: &mut BTreeMap<PackedEntry, Word>,
) -> Result<(), AllocError>
    ensures none { OnOk result (rising.new.items ≡ []) }
    ensures same { OnOk result ((each : Entry) → said_in tree.new.entries each
        ≡ said_in (rising.old.items ++ tree.old.entries) each) }
{
    while let Some((entry, word)) = rising.pop() {
        tree.insert(entry, word)?;
    }
    Ok(())
}

/// What was said, by rising entries. It takes memory only where the tree has something.
pub(crate) fn listed_in(
    alloc: Global,
    rising: Vec<(PackedEntry, Word)>,
    tree: BTreeMap<PackedEntry, Word>,
) -> Result<Vec<(PackedEntry, Word)>, AllocError>
    requires { IsStrictlySortedBy entry_cmp (map (λ each. each.0) rising.items) }
    ensures same { IfOk result (λ listed. (each : Entry) → said_in listed.items each
        ≡ said_in (rising.items ++ tree.entries) each) }
    ensures rising { IfOk result (λ listed. IsStrictlySortedBy entry_cmp (map (λ each. each.0) listed.items)) }
    ensures refused { OnErr result (0 < length (rising.items ++ tree.entries)) }
{
    if tree.len() == 0 {
        return Ok(rising);
    }
    let mut rising = rising;
    let mut tree = tree;
    gather(&mut rising, &mut tree)?;
    let listed = in_order(alloc, tree)?;
    Ok(listed)
}

/// What the tree has.
fn in_order(
    alloc: Global,
    tree: BTreeMap<PackedEntry, Word>,
) -> Result<Vec<(PackedEntry, Word)>, AllocError>
    ensures same { IfOk result (λ listed. listed.items ≡ tree.entries) }
    ensures rising { IfOk result (λ listed. IsStrictlySortedBy entry_cmp (map (λ each. each.0) listed.items)) }
{
    // An empty list takes no memory; and a map tells with its length that its keys rise.
    if tree.len() == 0 {
        return Ok(Vec::new(alloc));
    }
    Ok(tree.into_iter().collect(alloc)?)
}
