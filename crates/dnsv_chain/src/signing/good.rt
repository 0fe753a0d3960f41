//! Whether a signature is good under one key.
ghost use Rattle.std.specs.Prelude.{◌↔◌, IfOk, IsTrue};
ghost use Rattle.dnsv_verifier.specs.Admissible.{IsGood};
ghost use Rattle.dnsv_verifier.specs.Table.{table_answer};

use crate::signing::is_valid;
use dnsv_canonical::{Rrset, signed_data};
use dnsv_records::Rrsig;
use dnsv_verifier::{KeyRecord, Table, a_pair_has_one_entry, is_admissible};
use std::alloc::{AllocError, Global};

/// Whether the signature of the RRset is good under the key at the table's moment: the key may be used for it, and the
/// table says Valid (RFC 4035 5.3). An entry that the table lacks counts as Unknown.
#[tactic(auto, using(crate::proofs::SigningLemmas::GoodLemmas::not_admissible, crate::proofs::SigningLemmas::GoodLemmas::never_signed))]
pub fn is_good(
    alloc: Global,
    table: &Table<'_>,
    rrset: &Rrset<'_>,
    rrsig: &Rrsig<'_>,
    key: &KeyRecord<'_>,
) -> Result<bool, AllocError>
    ensures { IfOk result (λ good. IsTrue good
        ↔ IsGood (table_answer table.now) table.now.moment rrset.now rrsig.now key.now) }
{
    if !is_admissible(table.moment(), rrset, rrsig, key) {
        return Ok(false);
    }
    a_pair_has_one_entry();
    let Some(octets) = signed_data(alloc, rrset, rrsig)? else {
        return Ok(false);
    };
    Ok(is_valid(table, rrsig, octets.as_slice(), key))
}
