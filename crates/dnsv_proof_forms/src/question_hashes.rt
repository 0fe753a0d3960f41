//! The hashes of the names that a question asks for, kept by themselves.
ghost use Rattle.std.specs.Prelude.{◌≡◌, ◌≤◌, ◌↔◌, ℕ, IfOk, IsTrue, List, MatchOption, Some, slice_get};
ghost use Rattle.dnsv_names.specs.Count.{counted};
ghost use Rattle.dnsv_names.specs.Name.{Labels};
ghost use Rattle.dnsv_names.specs.Order.{IsBelow};
ghost use Rattle.dnsv_names.specs.Tree.{wildcard_of};
ghost use Rattle.dnsv_records.specs.declared.nsec3.Nsec3Parameters.{Nsec3Parameters};
ghost use Rattle.dnsv_canonical.specs.Evidence.{AreParameters, nsec3_rdata};
ghost use Rattle.dnsv_digest.specs.Nsec3Hash.{nsec3_hash_of};
ghost use Rattle.dnsv_zones.specs.chains.HashedNames.{hashes_for, sha1_hash};
ghost use Rattle.dnsv_zones.specs.chains.Nsec3Chain.{IsAsked};
ghost use Rattle.dnsv_zones.specs.chains.Rdata.{parameters_of};
ghost use Rattle.dnsv_proof_forms.specs.KeptHashes.{AreKeptHashes};
ghost use Rattle.dnsv_proof_forms.specs.QuestionHashes.{AreHashedFor, AreUsed, IsAskedHash};
ghost use Rattle.dnsv_proof_forms.specs.KeptHashes.{IsSetOf};
ghost use Rattle.dnsv_proof_forms.specs.declared.records.name_hashes.NameHashes.{NameHashes};

use crate::records::hashed_records::HashedRecords;
use crate::records::name_hashes::{NameHashes, sets_of};
use crate::records::nsec3_entries::Nsec3Entries;
use dnsv_canonical::Capture;
use dnsv_names::{Count, Hash20, Name};
use dnsv_records::Nsec3Parameters;
use std::alloc::{AllocError, Global};
use std::marker::Model;
use std::rc::Rc;

/// The hashes of the names that a question asks for: its name, the ancestors of that, and each wildcard right below one
/// of its proper ancestors, with each iterations and salt of a usable NSEC3 record of a capture (RFC 5155 5, 8).
#[derive(Drop)]
pub struct Hashes<'a> {
    capture: &'a Capture<'a>,
    name: Name,
    /// In the order of their parameters. Each view that is made with them has a share.
    sets: Rc<Vec<NameHashes<'a>>>,
}

impl<'a> Model for Hashes<'a> {
    ghost use Rattle.dnsv_proof_forms.specs.KeptHashes.{AreKeptHashes};
    ghost use Rattle.dnsv_proof_forms.specs.QuestionHashes.{HashedQuestion};

    ghost Value = { HashedQuestion };

    ghost view = { λ hashes. record { rrsets = hashes.capture.now.rrsets; name = hashes.name } };

    ghost invariant = { λ hashes. AreKeptHashes hashes.capture.now.rrsets hashes.name hashes.sets.value.items };
}

impl<'a> Hashes<'a> {
    /// Makes the hashes for a question of the name. `count` grows by the SHA-1 digests that are worked out: one more
    /// than the iterations for each of the names, with each iterations and salt (RFC 5155 5).
    pub fn new(
        alloc: Global,
        capture: &'a Capture<'a>,
        name: &Name,
        count: &mut Count,
    ) -> Result<Hashes<'a>, AllocError>
        ensures value { IfOk result (λ hashes. hashes ≡ record { rrsets = capture.now.rrsets; name = name.now }) }
        // Whatever the order of the parameters.
        ensures count { IfOk result (λ hashes. (all : List Nsec3Parameters)
            → AreParameters (nsec3_rdata capture.now.rrsets) all
            → count.new ≡ counted count.old (hashes_for name.now all)) }
        // Where memory is refused, too.
        ensures grown { count.old ≤ count.new }
    {
        let sets = sets_of(alloc, capture.nsec3_parameters(), name, count)?;
        Ok(Hashes {
            capture,
            name: name.clone()?,
            sets: Rc::new(alloc, sets)?,
        })
    }

    /// The name whose question asks for them.
    pub fn name(&self) -> &Name
        ensures { result.now ≡ self.now.name }
    {
        &self.name
    }

    /// A share of the sets, in the order of their parameters: those of all usable NSEC3 records of the capture.
    pub fn share(&self) -> Result<Rc<Vec<NameHashes<'a>>>, AllocError>
        ensures { IfOk result (λ sets. AreKeptHashes self.now.rrsets self.now.name sets.value.items) }
    {
        self.sets.clone()
    }

    /// The hash of the name with so many iterations and the salt (RFC 5155 5). `None` where no usable NSEC3 record of
    /// the capture has these, or a question of the kept name doesn't ask for the name.
    pub fn get(&self, iterations: u16, salt: &[u8], name: &Name) -> Option<Hash20>
        ensures { MatchOption result (¬ IsAskedHash self.now iterations salt.now name.now)
            (λ hash. IsAskedHash self.now iterations salt.now name.now
            × (hash ≡ nsec3_hash_of name.now salt.now iterations)) }
    {
        let Some(place) = place_of(&self.sets, iterations, salt) else {
            return None;
        };
        asked_hash(&self.name, &self.sets[place], name)
    }

    /// The NSEC3 records with the hashes that are asked of those with the parameters; `None` where no usable NSEC3 record
    /// of the capture has these parameters.
    pub fn hashed<'r>(
        &'r self,
        entries: &'r Nsec3Entries<'r>,
        parameters: &Nsec3Parameters<'_>,
    ) -> Option<HashedRecords<'r>>
        ensures { MatchOption result (¬ AreUsed self.now.rrsets (parameters_of parameters.now))
            (λ hashed. AreUsed self.now.rrsets (parameters_of parameters.now)
            × AreHashedFor self.now entries.now (parameters_of parameters.now) hashed) }
    {
        let salt = parameters.salt.as_slice();
        let Some(place) = place_of(&self.sets, parameters.iterations.0, salt) else {
            return None;
        };
        let set = &self.sets[place];
        Some(HashedRecords {
            entries,
            name: &self.name,
            parameters: set.parameters,
            above: &set.hashed.above,
            wildcards: &set.hashed.wildcards,
        })
    }
}

/// The place of the set with these parameters.
fn place_of(sets: &[NameHashes<'_>], iterations: u16, salt: &[u8]) -> Option<usize>
    ensures { MatchOption result
        ((k : ℕ) (set : NameHashes) → slice_get sets.now k ≡ Some set → ¬ (parameters_of set.parameters.now
        ≡ record { iterations = iterations; salt = salt.now }))
        (λ place. (set : NameHashes) × (slice_get sets.now place ≡ Some set)
        × (parameters_of set.parameters.now ≡ record { iterations = iterations; salt = salt.now })) }
{
    for (place, set) in sets.iter().enumerate() {
        if has_parameters(set, iterations, salt) {
            return Some(place);
        }
    }
    None
}

/// Whether the set's hashes are made with these parameters.
fn has_parameters(set: &NameHashes<'_>, iterations: u16, salt: &[u8]) -> bool
    ensures { IsTrue result
        ↔ (parameters_of set.now.parameters.now ≡ record { iterations = iterations; salt = salt.now }) }
{
    set.parameters.iterations.0 == iterations && set.parameters.salt.as_slice() == salt
}

/// The hash of the name in the set, if a question of the other name asks for it.
fn asked_hash(question: &Name, set: &NameHashes<'_>, name: &Name) -> Option<Hash20>
    requires { IsSetOf question.now set.now }
    ensures { MatchOption result (¬ IsAsked question.now name.now)
        (λ hash. IsAsked question.now name.now
        × (hash ≡ (sha1_hash (parameters_of set.now.parameters.now)).of name.now)) }
{
    let labels = name.labels();
    if question.is_at_or_below(name) {
        return Some(set.hashed.above[labels]);
    }
    if !is_wildcard_above(question, name) {
        return None;
    }
    Some(set.hashed.wildcards[labels - 1])
}

/// Whether the name is a wildcard right below a proper ancestor of the question's.
fn is_wildcard_above(question: &Name, name: &Name) -> bool
    ensures { IsTrue result ↔ ((above : Labels) × IsBelow question.now above × (name.now ≡ wildcard_of above)) }
{
    if !name.is_wildcard() {
        return false;
    }
    let Some(above) = name.parent() else {
        return false;
    };
    question.labels() > above.labels() && question.is_at_or_below(&above)
}
