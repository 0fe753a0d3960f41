//! The names above the one that is asked for that own DNAME RRsets.
ghost use Rattle.std.specs.Prelude.{◌≡◌, ◌≤◌, ◌++◌, IfOk, OnOk, length};
ghost use Rattle.dnsv_gaps.specs.questions.Dnames.{dname_at, dnames_above};

use crate::asked::AskedQuestion;
use dnsv_names::RecordType;
use dnsv_remedies::DnameFacts;
use std::alloc::{AllocError, Global};

/// Each such name, from the root down, with the lowest of its DNAME RRsets: nothing is made of it (RFC 6672).
pub fn dnames(
    alloc: Global,
    question: &AskedQuestion<'_, '_>,
) -> Result<Vec<DnameFacts>, AllocError>
    ensures { IfOk result (λ dnames. dnames.items ≡ dnames_above question.now.facts.now.rrsets question.now.name.now) }
{
    let mut dnames = Vec::new(alloc);
    for labels in 0..question.name.labels() {
        add_dname(question, labels, &mut dnames)?;
    }
    Ok(dnames)
}

/// Adds the name's so many rightmost labels, if they are such a name.
fn add_dname(
    question: &AskedQuestion<'_, '_>,
    labels: usize,
    dnames: &mut Vec<DnameFacts>,
) -> Result<(), AllocError>
    requires { labels ≤ length question.now.name.now }
    ensures { OnOk result (dnames.new.items ≡ dnames.old.items ++ dname_at question.now.facts.now.rrsets question.now.name.now labels) }
{
    let above = question.name.suffix(labels);
    let numbers = question.facts.capture().at(&above, RecordType::DNAME);
    if numbers.is_empty() {
        return Ok(());
    }
    dnames.push(DnameFacts {
        labels,
        rrset: numbers[0],
    })?;
    Ok(())
}
