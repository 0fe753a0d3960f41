//! What a verifier says of a signature under one key.
ghost use Rattle.std.specs.Prelude.{◌≡◌, IfOk};
ghost use Rattle.std.specs.Option.{option_map};
ghost use Rattle.dnsv_verifier.specs.Table.{table_answer};
ghost use Rattle.dnsv_zone_keys.specs.Answers.AnswerSearch.{IsAskedOf, key_answer};
ghost use Rattle.dnsv_zone_keys.specs.Answers.{IsKeyAnswer};

use dnsv_canonical::{Rrset, signed_data};
use dnsv_mending::KeyAnswer;
use dnsv_records::Rrsig;
use dnsv_verifier::{
    Answer, KeyRecord, Table, Verifier, a_pair_has_one_entry, entry_over, is_verifiable,
    may_have_made,
};
use std::alloc::{AllocError, Global};

/// What a verifier may be asked of, made once for all keys: the octets that the signature of the RRset signs. `None` where
/// it can't be verified at the moment, whichever key made it.
#[tactic(auto, using(crate::proofs::lemmas::AnswerLemmas::always_signed))]
pub fn asked_octets(
    alloc: Global,
    moment: u64,
    rrset: &Rrset<'_>,
    rrsig: &Rrsig<'_>,
) -> Result<Option<Vec<u8>>, AllocError>
    ensures { IfOk result (λ octets. IsAskedOf moment rrset.now rrsig.now (option_map (λ each. each.items) octets)) }
{
    if !is_verifiable(moment, rrset, rrsig) {
        return Ok(None);
    }
    Ok(signed_data(alloc, rrset, rrsig)?)
}

/// What the table says of the signature of the RRset under the key. `octets` is what may be asked of.
pub fn answer_under(
    table: &Table<'_>,
    rrset: &Rrset<'_>,
    rrsig: &Rrsig<'_>,
    octets: &Option<Vec<u8>>,
    key: &KeyRecord<'_>,
) -> KeyAnswer
    requires { IsAskedOf table.now.moment rrset.now rrsig.now (option_map (λ each. each.items) octets.now) }
    ensures { IsKeyAnswer (table_answer table.now) table.now.moment rrset.now rrsig.now key.now result }
{
    let Some(octets) = octets else {
        return KeyAnswer::Unanswered;
    };
    if !may_have_made(key, rrsig) {
        return KeyAnswer::Unanswered;
    }
    a_pair_has_one_entry();
    key_answer(table.answer(&entry_over(rrsig, octets.as_slice(), key)))
}

/// What the answer comes to.
fn key_answer(answer: Answer) -> KeyAnswer
    ensures { result ≡ key_answer answer }
{
    match answer {
        Answer::Valid => KeyAnswer::Good,
        Answer::Invalid => KeyAnswer::Bad,
        Answer::Unknown => KeyAnswer::Unanswered,
    }
}
