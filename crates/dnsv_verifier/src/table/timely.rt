//! The entries of a table whose signatures are valid at a moment.
ghost use Rattle.std.specs.Prelude.{◌≡◌, IfOk, filter, length, map};
ghost use Rattle.std.specs.List.{zip};
ghost use Rattle.dnsv_verifier.specs.Numbers.{is_timely, is_timely_in};

use crate::answer::Answer;
use crate::entry::Entry;
use crate::entry::parts::{EntryNumbers, Parts};
use dnsv_names::u32_at;
use dnsv_records::{Expiration, Inception, time_valid};
use std::alloc::{AllocError, Global};

/// Numbers of entries, and an answer for each.
#[derive(Drop)]
pub(crate) struct Timely {
    pub(crate) numbers: Vec<EntryNumbers>,
    pub(crate) answers: Vec<Answer>,
}

/// Those of the entries whose signature is valid at the moment, with their answers.
pub(crate) fn timely_entries(
    alloc: Global,
    moment: u64,
    parts: &Parts<'_>,
    numbers: &[EntryNumbers],
    answers: &[Answer],
) -> Result<Timely, AllocError>
    requires { length answers.now ≡ length numbers.now }
    ensures numbers { IfOk result (λ timely. timely.numbers.items
        ≡ map (λ each. each.0) (filter (is_timely_in moment parts.now) (zip numbers.now answers.now))) }
    ensures answers { IfOk result (λ timely. timely.answers.items
        ≡ map (λ each. each.1) (filter (is_timely_in moment parts.now) (zip numbers.now answers.now))) }
{
    let mut kept = Vec::new(alloc);
    let mut said = Vec::new(alloc);
    for (place, each) in numbers.iter().enumerate() {
        if is_timely(moment, &parts.entry(*each)) {
            kept.push(*each)?;
            said.push(answers[place])?;
        }
    }
    Ok(Timely {
        numbers: kept,
        answers: said,
    })
}

/// Whether the signature of the entry is valid at the moment. Its signed data begins with the RRSIG's RDATA, where the
/// expiration stands at 8 and the inception at 12 (RFC 4034 3.1, 3.1.8.1).
fn is_timely(moment: u64, entry: &Entry<'_>) -> bool
    ensures { result ≡ is_timely moment entry.now }
{
    let octets = entry.signed_data.front();
    if octets.len() < 16 {
        return false;
    }
    let expiration = Expiration(u32_at(octets, 8));
    let inception = Inception(u32_at(octets, 12));
    time_valid(inception, expiration, moment)
}
