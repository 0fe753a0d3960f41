//! The making of the hashes that a question asks for.
ghost use Rattle.std.specs.Prelude.{◌≡◌, ◌≤◌, ◌+◌, ◌*◌, IfOk, length};
ghost use Rattle.dnsv_names.specs.Count.{counted};
ghost use Rattle.dnsv_names.specs.Name.{rightmost};
ghost use Rattle.dnsv_names.specs.Tree.{wildcard_of};
ghost use Rattle.dnsv_zones.specs.chains.HashedNames.{sha1_hash, AreEach, AreHashes};
ghost use Rattle.dnsv_zones.specs.chains.Rdata.{parameters_of};

use dnsv_digest::nsec3_hash;
use dnsv_names::{Count, Hash20, Name};
use dnsv_records::Nsec3Parameters;
use std::alloc::{AllocError, Global};

/// The hashes, with one set of parameters, of the names that a question asks for (RFC 5155 8).
#[derive(Debug, Drop)]
pub struct HashedNames {
    /// The hash of the question's rightmost n labels, for n from 0 on: of the root, and at last of the whole name.
    pub above: Vec<Hash20>,
    /// The hash of the wildcard right below the question's rightmost n labels, for n from 0 on.
    pub wildcards: Vec<Hash20>,
}

/// Makes the hashes for a question of `name`. `count` grows by the hashes that are made: one more than the iterations
/// for each of the names, which are twice the question's labels and one.
pub fn hash_names(
    alloc: Global,
    name: &Name,
    parameters: &Nsec3Parameters<'_>,
    count: &mut Count,
) -> Result<HashedNames, AllocError>
    ensures hashes { IfOk result (λ hashed. AreHashes (sha1_hash (parameters_of parameters.now)) name.now
        hashed.above.items hashed.wildcards.items) }
    ensures count { IfOk result (λ hashed. count.new
        ≡ counted count.old ((2 * length name.now + 1) * (parameters.now.iterations.0 + 1))) }
    // Where memory is refused, too.
    ensures grown { count.old ≤ count.new }
{
    let above = hash_above(alloc, name, parameters, count)?;
    let wildcards = hash_wildcards(alloc, name, parameters, count)?;
    Ok(HashedNames { above, wildcards })
}

/// The hashes of the name's rightmost labels, from the root to the whole name.
fn hash_above(
    alloc: Global,
    name: &Name,
    parameters: &Nsec3Parameters<'_>,
    count: &mut Count,
) -> Result<Vec<Hash20>, AllocError>
    ensures hashes { IfOk result (λ hashes. AreEach
        (λ n. (sha1_hash (parameters_of parameters.now)).of (rightmost name.now n)) (length name.now + 1)
        hashes.items) }
    ensures count { IfOk result (λ hashes. count.new
        ≡ counted count.old ((length name.now + 1) * (parameters.now.iterations.0 + 1))) }
    ensures grown { count.old ≤ count.new }
{
    // What is true of every count.
    let _ = count.value();
    let mut hashes = Vec::new(alloc);
    for labels in 0..name.labels() + 1 {
        let above = name.suffix(labels);
        let hash = nsec3_hash(
            &above,
            parameters.salt.as_slice(),
            parameters.iterations.0,
            count,
        );
        hashes.push(hash)?;
    }
    Ok(hashes)
}

/// The hashes of the wildcards right below the name's proper ancestors, from the root on.
fn hash_wildcards(
    alloc: Global,
    name: &Name,
    parameters: &Nsec3Parameters<'_>,
    count: &mut Count,
) -> Result<Vec<Hash20>, AllocError>
    ensures hashes { IfOk result (λ hashes. AreEach
        (λ n. (sha1_hash (parameters_of parameters.now)).of (wildcard_of (rightmost name.now n))) (length name.now)
        hashes.items) }
    ensures count { IfOk result (λ hashes. count.new
        ≡ counted count.old (length name.now * (parameters.now.iterations.0 + 1))) }
    ensures grown { count.old ≤ count.new }
{
    // What is true of every count.
    let _ = count.value();
    let mut hashes = Vec::new(alloc);
    for labels in 0..name.labels() {
        let wildcard = name.source_of_synthesis(labels);
        let hash = nsec3_hash(
            &wildcard,
            parameters.salt.as_slice(),
            parameters.iterations.0,
            count,
        );
        hashes.push(hash)?;
    }
    Ok(hashes)
}
