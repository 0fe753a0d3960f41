//! The way over secure aliases from the name of a question to the last one.
ghost use Rattle.std.specs.Prelude.{◌≡◌, ◌↔◌, ◌<◌, ◌++◌, ℕ, List, [], ◌∷◌, Contains, IfErr, IfOk, IsFalse, IsTrue, MatchOption, length};
ghost use Rattle.std.specs.List.{AllByRecursion};
ghost use Rattle.dnsv_names.specs.Count.{counted};
ghost use Rattle.dnsv_names.specs.Name.{IsName, Labels, SameName};
ghost use Rattle.dnsv_records.specs.declared.nsec3.Nsec3Parameters.{Nsec3Parameters};
ghost use Rattle.dnsv_canonical.specs.Evidence.{AreParameters, nsec3_rdata};
ghost use Rattle.dnsv_questions.specs.Question.{IsQuestion};
ghost use Rattle.dnsv_verifier.specs.Table.{IsTableOf};
ghost use Rattle.dnsv_verifier.specs.declared.answer.Answer.{Answer};
ghost use Rattle.dnsv_verifier.specs.declared.entry.Entry.{Entry};
ghost use Rattle.dnsv_verdict.specs.Way.End.{IsEndOf, verdict_at_end};
ghost use Rattle.dnsv_verdict.specs.Report.Hashed.{hashes_on};
ghost use Rattle.dnsv_verdict.specs.Report.{IsKept};
ghost use Rattle.dnsv_verdict.specs.Shared.{IsSharedOf};
ghost use Rattle.dnsv_verdict.specs.Trail.{IsEmpty, kept_hashes};
ghost use Rattle.dnsv_verdict.specs.Way.{IsAlias, IsAmong, IsTarget, Stops, most_links, names_on};
ghost use Rattle.dnsv_verdict.specs.declared.link.Link.{Link};
ghost use Rattle.dnsv_verdict.specs.declared.verdict.Verdict.TheVariants.{SecureAlias};
ghost use Rattle.dnsv_chain.specs.Basis.{basis_of};

use crate::at_name::verdict_at;
use crate::case::Case;
use crate::case::shared::Shared;
use crate::error::VerdictError;
use crate::link::{LINK_LIMIT, Link, Links};
use crate::target::target_of;
use crate::trail::Trail;
use crate::verdict::Verdict;
use dnsv_names::{Count, Name, RecordType, counts_add_up};
use dnsv_questions::is_question;
use std::alloc::{AllocError, Global};

/// A way as far as it was followed.
#[derive(Drop)]
pub struct Way {
    pub links: Links,
    pub last: Name,
}

/// How a way ends.
#[derive(Drop)]
pub enum End<'a> {
    /// With the verdict at the last name, which is that on the question.
    Reached(Verdict<'a>),
    /// With an alias at the last name that can't be followed: its RRset and signature, and why not.
    Blocked {
        alias: (usize, usize),
        error: VerdictError,
    },
}

/// A way to its end.
#[derive(Drop)]
pub struct Followed<'a> {
    pub way: Way,
    pub end: End<'a>,
}

/// Follows secure aliases from the name on to the last name, where the verdict is no alias, or one that can't be
/// followed. `hashed` grows by the SHA-1 digests that each name takes, and the trail, if it keeps anything, by what each
/// verdict is found by.
///
/// An alias can't be followed: `AliasTargets` where it has no one target, `AliasLoop` where the target
/// is a name of the way, `TooManyLinks` where it would be the ninth link, `BadQuestion` where the type can't be asked
/// at the target; the first of these, in this order.
pub fn follow<'a>(
    alloc: Global,
    case: &Case<'a>,
    shared: &mut Shared<'a>,
    name: &Name,
    rtype: RecordType,
    hashed: &mut Count,
    trail: &mut Trail<'a>,
) -> Result<Followed<'a>, AllocError>
    requires { IsSharedOf case.now shared.now }
    ensures end { (meaning : Entry → Answer) (moment : ℕ)
        → IsTableOf meaning moment case.now.rrsets case.now.table
        → IfOk result (λ followed. IsEndOf (basis_of case.now.rrsets case.now.anchors moment
        meaning) name.now rtype.0 followed.way.links followed.way.last followed.end) }
    ensures hashed { IfOk result (λ followed. (all : List Nsec3Parameters)
        → AreParameters (nsec3_rdata case.now.rrsets) all
        → hashed.new ≡ counted hashed.old (hashes_on (names_on followed.way.links followed.way.last) all)) }
    ensures names { IfOk result (λ followed. AllByRecursion IsName
        (names_on followed.way.links followed.way.last)) }
    ensures kept { IfOk result (λ followed. IsTrue trail.old.keeps → IsEmpty trail.old
        → IsKept case.now rtype.0 followed.way.links followed.way.last (verdict_at_end followed.end)
        (kept_hashes trail.new) trail.new.hope) }
    ensures unkept { IfOk result (λ followed. IsFalse trail.old.keeps → trail.new ≡ trail.old) }
    ensures shared { IsSharedOf case.now shared.new }
{
    counts_add_up();
    // What is true of every count and of every name.
    let _ = hashed.value();
    let _ = name.wire();
    let mut way = Way {
        links: Links::new(),
        last: name.clone()?,
    };
    'links: loop {
        let verdict = verdict_at(alloc, case, shared, trail, &way.last, rtype, hashed)?;
        let Some(alias) = alias_of(&verdict) else {
            let end = End::Reached(verdict);
            return Ok(Followed { way, end });
        };
        let (rrset, signature) = alias;
        let found = target_in(alloc, case, rrset)?;
        match next_name(case, &way, rrset, found, rtype) {
            Ok(target) => way = longer(way, rrset, signature, target),
            Err(error) => {
                let end = End::Blocked { alias, error };
                return Ok(Followed { way, end });
            }
        }
    }
}

/// The RRset and the signature of a secure alias.
fn alias_of(verdict: &Verdict<'_>) -> Option<(usize, usize)>
    ensures { MatchOption result (¬ IsAlias verdict.now) (λ found. verdict.now ≡ SecureAlias found.0 found.1) }
{
    match verdict {
        Verdict::SecureAlias { rrset, signature } => Some((*rrset, *signature)),
        _ => None,
    }
}

/// The way with one link more, from its last name to the target.
fn longer(way: Way, rrset: usize, signature: usize, target: Name) -> Way
    requires { length way.links < most_links }
    ensures links { result.links
        ≡ way.links ++ (record { name = way.last; rrset = rrset; signature = signature }) ∷ [] }
    ensures last { result.last ≡ target }
{
    let mut links = way.links;
    links.push(Link {
        name: way.last,
        rrset,
        signature,
    });
    Way {
        links,
        last: target,
    }
}

/// The target of the alias at the way's last name, if one was found, where the way can go on to it.
fn next_name(
    case: &Case<'_>,
    way: &Way,
    rrset: usize,
    found: Option<Name>,
    rtype: RecordType,
) -> Result<Name, VerdictError>
    requires { MatchOption found ((target : Labels) → ¬ IsTarget case.now.rrsets rrset target)
        (IsTarget case.now.rrsets rrset) }
    ensures target { IfOk result (IsTarget case.now.rrsets rrset) }
    ensures new { IfOk result (λ target. ¬ IsAmong target (names_on way.now.links way.now.last)) }
    ensures few { IfOk result (λ target. length way.now.links < most_links) }
    ensures question { IfOk result (λ target. IsQuestion target rtype.0) }
    ensures stops { IfErr result (Stops case.now.rrsets rtype.0 (names_on way.now.links way.now.last)
        (length way.now.links) rrset) }
{
    let Some(target) = found else {
        return Err(VerdictError::AliasTargets);
    };
    if is_on(way, &target) {
        return Err(VerdictError::AliasLoop);
    }
    if way.links.as_slice().len() >= LINK_LIMIT {
        return Err(VerdictError::TooManyLinks);
    }
    if !is_question(&target, rtype) {
        return Err(VerdictError::BadQuestion);
    }
    Ok(target)
}

/// The target of the case's RRset with the number.
fn target_in(alloc: Global, case: &Case<'_>, rrset: usize) -> Result<Option<Name>, AllocError>
    ensures { IfOk result (λ found. MatchOption found
        ((target : Labels) → ¬ IsTarget case.now.rrsets rrset target) (IsTarget case.now.rrsets rrset)) }
{
    let target = target_of(alloc, case.capture(), rrset)?;
    Ok(target)
}

/// Whether the name is the same as one of the way.
fn is_on(way: &Way, name: &Name) -> bool
    ensures { IsTrue result ↔ IsAmong name.now (names_on way.now.links way.now.last) }
{
    has_link_at(way.links.as_slice(), name) || *name == way.last
}

/// Whether the name is the same as that of one of the links.
fn has_link_at(links: &[Link], name: &Name) -> bool
    ensures { IsTrue result ↔ ((link : Link) × Contains links.now link × SameName name.now link.name) }
{
    links.iter().any(|link| *name == link.name)
}
