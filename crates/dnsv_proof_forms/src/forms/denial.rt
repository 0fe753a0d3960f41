//! The denials that are proved by the records of one chain.
ghost use Rattle.std.specs.Prelude.{MatchOption};
ghost use Rattle.std.specs.Ordering.{nat_cmp};
ghost use Rattle.dnsv_zones.specs.forms.Forms.{NoCloserForm};
ghost use Rattle.dnsv_zones.specs.forms.RecordWords.{words};
ghost use Rattle.dnsv_proof_forms.specs.forms.Denials.{DenialForm};
ghost use Rattle.dnsv_proof_forms.specs.forms.ProofForms.{ShowsNoCloser};
ghost use Rattle.dnsv_proof_forms.specs.forms.ShownUnsigned.{ShowsDenial};
ghost use Rattle.dnsv_proof_forms.specs.words.ChainSaid.{chain_said, HasHashes};

use crate::forms::by_wildcard::no_name;
use crate::forms::missing_type::no_data;
use crate::forms::proof_form::ProofForm;
use crate::forms::unsigned::{delegation_at, opt_out_at, opt_out_closer};
use crate::forms::wildcard_answer::no_closer;
use crate::records::chain_records::ChainRecords;
use crate::words::any_name::has_records;
use dnsv_names::{Name, RecordType};

/// What records show of a question's name: a denial, or that it may be unsigned from some name on.
#[derive(Clone, Copy)]
pub enum Denial {
    /// There is no such name (RFC 4035 5.4, RFC 5155 8.4).
    NoName,
    /// Neither the type nor CNAME is there (RFC 4035 5.4, RFC 5155 8.5 to 8.7), and this side of a cut may say so.
    NoData(RecordType),
    /// No closer name than the wildcard below so many of its rightmost labels is there (RFC 4035 5.3.4, RFC 5155 8.8).
    NoCloser(usize),
    /// A delegation without DS is at so many of its rightmost labels (RFC 4035 5.2, RFC 5155 8.9).
    Delegation(usize),
    /// Opt-Out may leave out a delegation at the next closer name to so many of its rightmost labels, or at the wildcard
    /// beside it (RFC 5155 8.6, 9.2).
    OptOut(usize),
    /// It may do so against an answer from the wildcard below so many of its rightmost labels (RFC 5155 8.8).
    OptOutCloser(usize),
}

impl Denial {
    /// The form that proves it, with the places of its records, or `None` where none do.
    pub fn places(
        self,
        apex: &Name,
        name: &Name,
        records: &ChainRecords<'_>,
    ) -> Option<ProofForm<usize>>
        requires { HasHashes name.now records.now }
        ensures { MatchOption result
            (¬ DenialForm self name.now (chain_said apex.now records.now) apex.now)
            (ShowsDenial nat_cmp self name.now (chain_said apex.now records.now) apex.now) }
    {
        if !has_records(records) {
            return None;
        }
        match self {
            Denial::NoName => no_name(apex, name, records),
            Denial::NoData(rtype) => no_data(apex, name, rtype, records),
            Denial::NoCloser(labels) => closer_form(records, labels, apex, name),
            Denial::Delegation(labels) => delegation_at(apex, name, labels, records),
            Denial::OptOut(labels) => opt_out_at(apex, name, labels, records),
            Denial::OptOutCloser(labels) => opt_out_closer(labels, apex, name, records),
        }
    }
}

/// The form that leaves no closer name than the wildcard below the name's so many labels, or `None` where no record does.
fn closer_form(
    records: &ChainRecords<'_>,
    labels: usize,
    apex: &Name,
    name: &Name,
) -> Option<ProofForm<usize>>
    requires { HasHashes name.now records.now }
    ensures { MatchOption result
        (¬ NoCloserForm (words (chain_said apex.now records.now)) apex.now name.now labels)
        (ShowsNoCloser nat_cmp (chain_said apex.now records.now) apex.now name.now labels) }
{
    let Some(next_closer) = no_closer(apex, name, labels, records) else {
        return None;
    };
    Some(ProofForm::NoCloser {
        labels,
        next_closer,
    })
}
