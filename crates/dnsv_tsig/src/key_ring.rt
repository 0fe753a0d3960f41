//! Keys that are shared with those who sign.
ghost use Rattle.std.specs.Prelude.{◌≡◌, ◌⊎◌, ◌++◌, [], ◌∷◌, Err, List, ℕ, None, IfOk, IfErr, OnOk, MatchOption};
ghost use Rattle.std.specs.Option.{option_copied};
ghost use Rattle.base64.specs.Engines.{standard};
ghost use Rattle.base64.specs.GeneralPurpose.{encode_of};
ghost use Rattle.dnsv_names.specs.Lines.Base64Field.{IsBase64};
ghost use Rattle.dnsv_names.specs.Lines.{AreFields};
ghost use Rattle.dnsv_names.specs.Octets.{AreOctets};
ghost use Rattle.dnsv_tsig.specs.Key.{SharedKey, key_named};
ghost use Rattle.dnsv_tsig.specs.KeyFile.{BeginsWithKey, IsFaultOfLine, IsKeyFault, IsKeyLine, IsRingOf};
ghost use Rattle.dnsv_tsig.specs.KeyNames.{AreNamesOf};
ghost use Rattle.dnsv_tsig.specs.KeyReading.{IsKeyText};

use crate::error::KeyFileError;
use crate::key_names::{KeyNames, add_name, has_name};
use dnsv_names::{Line, Lines, Name, StoredName, base64_octets, is_base64};
use std::alloc::{AllocError, Global};
use std::collections::BTreeSet;
use std::fmt;
use std::marker::Model;

/// A key and its name (RFC 8945 5.2.1).
#[derive(Drop)]
pub struct Key {
    name: StoredName,
    secret: Vec<u8>,
}

impl Model for Key {
    ghost use Rattle.dnsv_tsig.specs.Key.{SharedKey};

    ghost Value = { SharedKey };

    ghost view = { λ key. record { name = key.name; secret = key.secret.items } };
}

/// The name alone: whoever prints a ring for a report of a fault doesn't tell what is shared.
impl fmt::Debug for Key {
    fn fmt<W: fmt::Write>(&self, f: &mut fmt::Formatter<W>) -> fmt::Result {
        f.debug_struct("Key")
            .field("name", &self.name)
            .finish_non_exhaustive()
    }
}

impl Key {
    /// The key's name, as its file spells it.
    pub fn name(&self) -> Name
        ensures { result ≡ self.now.name }
    {
        self.name.to_name()
    }

    /// The key's octets.
    pub(crate) fn secret(&self) -> &[u8]
        ensures { result.now ≡ self.now.secret }
    {
        &self.secret
    }

    /// The key of this name, whose octets the field has in base64.
    fn of(alloc: Global, name: &Name, coded: &[u8]) -> Result<Key, AllocError>
        requires { IsBase64 coded.now }
        ensures { IfOk result (λ key. (key.name ≡ name.now) × AreOctets key.secret
            × (coded.now ≡ encode_of standard key.secret)) }
    {
        let name = StoredName::of(alloc, name)?;
        let secret = base64_octets(alloc, coded)?;
        Ok(Key { name, secret })
    }
}

/// The keys by which messages are verified, in the order of their file.
#[derive(Debug, Drop)]
pub struct KeyRing {
    keys: Vec<Key>,
}

impl Model for KeyRing {
    ghost use Rattle.std.specs.Prelude.{List};
    ghost use Rattle.dnsv_tsig.specs.Key.{SharedKey};

    ghost Value = { List SharedKey };

    ghost view = { λ ring. ring.keys.items };
}

impl KeyRing {
    ghost use Rattle.dnsv_tsig.specs.KeyFile.{BeginsWithKey, IsKeyFault, IsRingOf};

    /// Reads a file of keys: a line each, the name and then the key in base64 with padding, with one space
    /// between them. Empty lines and lines that begin with `#` are passed over, but counted.
    ///
    /// The error is that of the first line that is refused: it is no key's (`Syntax`), or an equal name stood before
    /// (`DuplicateKey`). Want of memory is reported only where the first line is a key's, so a file that is empty or of
    /// comments alone is always read.
    pub fn parse(alloc: Global, text: &[u8]) -> Result<KeyRing, KeyFileError>
        ensures ring { IfOk result (IsRingOf text.now) }
        ensures fault { IfErr result (λ error. (error ≡ KeyFileError.OutOfMemory) ⊎ IsKeyFault text.now error) }
        // A fault is told, unless memory was refused to a key before it.
        ensures every_fault { (fault : KeyFileError) → IsKeyFault text.now fault → (result ≡ Err fault)
            ⊎ ((result ≡ Err KeyFileError.OutOfMemory) × BeginsWithKey text.now) }
        // Memory is wanted only where the first line is a key's.
        ensures memory { IfErr result (λ error. error ≡ KeyFileError.OutOfMemory → BeginsWithKey text.now) }
    {
        test_lines(alloc, text)?;
        let keys = keys_of(alloc, text)?;
        Ok(KeyRing { keys })
    }

    /// The key with this name, without regard to case.
    pub fn key_named(&self, name: &Name) -> Option<&Key>
        ensures { option_copied result ≡ key_named name.now self.now }
    {
        self.keys.iter().find(|key| key.name.is_same(name))
    }
}

/// Tests the lines of a file before a key is kept, so that the names that were seen and the keys never lie in memory
/// together. Where memory is refused, the first line is a key's.
fn test_lines(alloc: Global, text: &[u8]) -> Result<(), KeyFileError>
    ensures ring { OnOk result ((ring : List SharedKey) × IsRingOf text.now ring) }
    ensures fault { IfErr result (λ error. (error ≡ KeyFileError.OutOfMemory) ⊎ IsKeyFault text.now error) }
    ensures every_fault { (fault : KeyFileError) → IsKeyFault text.now fault → (result ≡ Err fault)
        ⊎ ((result ≡ Err KeyFileError.OutOfMemory) × BeginsWithKey text.now) }
    ensures memory { IfErr result (λ error. error ≡ KeyFileError.OutOfMemory → BeginsWithKey text.now) }
{
    let mut names = BTreeSet::new(alloc);
    for line in Lines::new(text) {
        test_line(alloc, &mut names, &line)?;
    }
    Ok(())
}

/// Tests a line behind keys with these names, and adds its own. Where memory is refused, the line is that of a key with
/// a new name.
#[tactic(auto, using(crate::proofs::KeyLemmas::new_key, crate::proofs::KeyLemmas::named_again, crate::proofs::KeyNamesLemmas::unnamed, crate::proofs::KeyNamesLemmas::named))]
fn test_line(alloc: Global, names: &mut KeyNames, line: &Line) -> Result<(), KeyFileError>
    ensures added { OnOk result ((before : List SharedKey) → AreNamesOf names.old before
        → (key : SharedKey) × IsKeyLine line.now.octets key × (key_named key.name before ≡ None)
        × AreNamesOf names.new (before ++ key ∷ [])) }
    ensures fault { IfErr result (λ error. (before : List SharedKey) → AreNamesOf names.old before
        → ((error ≡ KeyFileError.OutOfMemory)
        × ((key : SharedKey) × IsKeyLine line.now.octets key × (key_named key.name before ≡ None)))
        ⊎ IsFaultOfLine error line.now before) }
{
    let Some((name, _coded)) = key_text(line) else {
        return Err(KeyFileError::Syntax(line.number()));
    };
    if has_name(names, &name) {
        return Err(KeyFileError::DuplicateKey(line.number()));
    }
    add_name(alloc, names, &name)?;
    Ok(())
}

/// The keys of a file without a fault. Where memory is refused, its first line is a key's.
fn keys_of(alloc: Global, text: &[u8]) -> Result<Vec<Key>, AllocError>
    requires { (ring : List SharedKey) × IsRingOf text.now ring }
    ensures ring { IfOk result (λ keys. IsRingOf text.now keys.items) }
    ensures memory { IfErr result (λ _. BeginsWithKey text.now) }
{
    let mut keys = Vec::new(alloc);
    for line in Lines::new(text) {
        if let Some((name, coded)) = key_text(&line) {
            keys.push(Key::of(alloc, &name, coded)?)?;
        }
    }
    Ok(keys)
}

/// The name of the key that a line is, and its octets in base64; `None` where the line is no key's. It takes no memory.
fn key_text<'a>(line: &Line<'a>) -> Option<(Name, &'a [u8])>
    ensures { MatchOption result ((key : SharedKey) → IsKeyLine line.now.octets key → ⊥)
        (λ found. IsKeyText line.now.octets found.0 found.1.now) }
{
    let Some((text, coded)) = two_fields(line) else {
        return None;
    };
    let Ok(name) = Name::parse(text) else {
        return None;
    };
    if !is_base64(coded) {
        return None;
    }
    Some((name, coded))
}

/// The fields of a line that has two.
fn two_fields<'a>(line: &Line<'a>) -> Option<(&'a [u8], &'a [u8])>
    ensures { MatchOption result
        ((text coded : List ℕ) → AreFields line.now.octets (text ∷ coded ∷ []) → ⊥)
        (λ found. AreFields line.now.octets (found.0.now ∷ found.1.now ∷ [])) }
{
    let Some(fields) = line.fields::<2>() else {
        return None;
    };
    Some((fields[0], fields[1]))
}
