//! The hashes of the names that a question asks for, one set for each of the parameters.
ghost use Rattle.std.specs.Prelude.{◌≡◌, ◌≤◌, ◌↔◌, IfOk, Contains, map};
ghost use Rattle.std.specs.List.{AllByRecursion};
ghost use Rattle.std.specs.List.Sorted.{IsStrictlySortedBy};
ghost use Rattle.dnsv_names.specs.Count.{counted};
ghost use Rattle.dnsv_records.specs.declared.nsec3.Nsec3Parameters.{Nsec3Parameters};
ghost use Rattle.dnsv_zones.specs.chains.HashedNames.{hashes_for};
ghost use Rattle.dnsv_zones.specs.chains.Rdata.{parameters_of};
ghost use Rattle.dnsv_proof_forms.specs.KeptHashes.{IsSetOf};
ghost use Rattle.dnsv_proof_forms.specs.records.ParametersOrder.{parameters_cmp};

use crate::records::parameters::parameters_in_order;
use dnsv_names::{Count, Name};
use dnsv_records::Nsec3Parameters;
use dnsv_zones::{HashedNames, hash_names};
use std::alloc::{AllocError, Global};

/// Parameters of NSEC3 records, and the hashes with them of the names that a question asks for.
#[derive(Drop)]
pub struct NameHashes<'a> {
    /// What the hashes are made with.
    pub parameters: &'a Nsec3Parameters<'a>,
    /// The hashes.
    pub hashed: HashedNames,
}

/// The hashes of the names that a question of the name asks for, for each of the parameters in their order, each once.
/// `count` grows by how often something is hashed.
pub fn sets_of<'a>(
    alloc: Global,
    all: &'a [Nsec3Parameters<'a>],
    name: &Name,
    count: &mut Count,
) -> Result<Vec<NameHashes<'a>>, AllocError>
    ensures hashed { IfOk result (λ sets. AllByRecursion (IsSetOf name.now) sets.items) }
    ensures order { IfOk result (λ sets. IsStrictlySortedBy parameters_cmp
        (map parameters_of (map (λ set. set.parameters.now) sets.items))) }
    ensures members { IfOk result (λ sets. (each : Nsec3Parameters) → Contains all.now each
        ↔ Contains (map (λ set. set.parameters.now) sets.items) each) }
    ensures count { IfOk result (λ sets. count.new
        ≡ counted count.old (hashes_for name.now (map (λ set. set.parameters.now) sets.items))) }
    ensures grown { count.old ≤ count.new }
{
    // What is true of every count.
    let _ = count.value();
    let ordered = parameters_in_order(alloc, all)?;
    let mut sets = Vec::new(alloc);
    for each in ordered.iter() {
        let parameters = each.parameters;
        let hashed = hash_names(alloc, name, parameters, count)?;
        sets.push(NameHashes { parameters, hashed })?;
    }
    Ok(sets)
}
