//! The verdict at one name, and what is hoped for it.

pub mod search;
pub mod settling;

ghost use Rattle.std.specs.Prelude.{◌≡◌, ◌↔◌, ℕ, List, IfOk, IfSome, IsTrue, MatchOption};
ghost use Rattle.dnsv_names.specs.Count.{counted};
ghost use Rattle.dnsv_records.specs.declared.nsec3.Nsec3Parameters.{Nsec3Parameters};
ghost use Rattle.dnsv_zones.specs.chains.HashedNames.{hashes_for};
ghost use Rattle.dnsv_canonical.specs.Evidence.{AreParameters, nsec3_rdata};
ghost use Rattle.dnsv_chain.specs.Trust.{SecuredIn};
ghost use Rattle.dnsv_verifier.specs.Table.{IsTableOf};
ghost use Rattle.dnsv_verifier.specs.declared.answer.Answer.{Answer};
ghost use Rattle.dnsv_verifier.specs.declared.entry.Entry.{Entry};
ghost use Rattle.dnsv_verdict.specs.Shared.{IsSharedOf};
ghost use Rattle.dnsv_verdict.specs.Hope.{IsHope};
ghost use Rattle.dnsv_verdict.specs.Settled.{IsSettled, IsSettledAs};
ghost use Rattle.dnsv_verdict.specs.Trail.{KeepsHope, Trails};
ghost use Rattle.dnsv_chain.specs.Basis.{HasAnchor, basis_of};
ghost use Rattle.dnsv_verdict.specs.Verdict.{IsSettledBy, IsVerdictAt, MayBeSettledBy};

use crate::at_name::settling::settled;
use crate::case::Case;
use crate::case::shared::Shared;
use crate::trail::Trail;
use crate::verdict::Verdict;
use dnsv_chain::{Anchors, trust_depends_on_what_is_asked};
use dnsv_denial::View;
use dnsv_names::{Count, Name, RecordType};
use dnsv_proof_forms::Hashes;
use dnsv_verifier::{a_table_is_its_verifier, unknown_entries_may_turn_out_valid};
use std::alloc::{AllocError, Global};
use std::rc::Rc;

/// What the evidence would settle if each of the entries that the verifier doesn't know were valid.
#[derive(Drop)]
pub struct Hope<'a> {
    /// The same evidence and anchors, with the hopeful table and its trust.
    pub case: Rc<Case<'a>>,
    /// One of the first five verdicts.
    pub verdict: Verdict<'a>,
}

/// The verdict at the name, for the type. `hashed` grows by the SHA-1 digests that the name takes, and the trail, if it
/// keeps anything, by what the verdict is found by. What is shared serves, and is added to. The verifier isn't asked
/// again.
pub fn verdict_at<'a>(
    alloc: Global,
    case: &Case<'a>,
    shared: &mut Shared<'a>,
    trail: &mut Trail<'a>,
    name: &Name,
    rtype: RecordType,
    hashed: &mut Count,
) -> Result<Verdict<'a>, AllocError>
    requires { IsSharedOf case.now shared.now }
    ensures value { (meaning : Entry → Answer) (moment : ℕ)
        → IsTableOf meaning moment case.now.rrsets case.now.table
        → IfOk result (IsVerdictAt (basis_of case.now.rrsets case.now.anchors moment meaning)
        name.now rtype.0) }
    ensures hashed { IfOk result (λ verdict. (all : List Nsec3Parameters)
        → AreParameters (nsec3_rdata case.now.rrsets) all
        → hashed.new ≡ counted hashed.old (hashes_for name.now all)) }
    ensures kept { IfOk result (λ verdict. Trails case.now name.now rtype.0 verdict trail.old trail.new) }
    ensures shared { IsSharedOf case.now shared.new }
{
    let hashes = shared.hashes_for(alloc, case, name, hashed)?;
    let verdict = verdict_by(alloc, case, shared, hashes.as_ref(), rtype, trail)?;
    trail.add(hashes)?;
    Ok(verdict)
}

/// The verdict at the name that the hashes are kept for. The trail keeps what it is hoped by, if it is Pending.
fn verdict_by<'a>(
    alloc: Global,
    case: &Case<'a>,
    shared: &mut Shared<'a>,
    hashes: &Hashes<'a>,
    rtype: RecordType,
    trail: &mut Trail<'a>,
) -> Result<Verdict<'a>, AllocError>
    requires shared { IsSharedOf case.now shared.now }
    requires rrsets { hashes.now.rrsets ≡ case.now.rrsets }
    ensures value { (meaning : Entry → Answer) (moment : ℕ)
        → IsTableOf meaning moment case.now.rrsets case.now.table
        → IfOk result (IsVerdictAt (basis_of case.now.rrsets case.now.anchors moment meaning)
        hashes.now.name rtype.0) }
    ensures kept { IfOk result (λ verdict. KeepsHope case.now hashes.now.name rtype.0 verdict trail.old trail.new) }
    ensures shared { IsSharedOf case.now shared.new }
{
    a_table_is_its_verifier();
    trust_depends_on_what_is_asked();
    // What is true of every case.
    let _trust = case.trust();
    if let Some(verdict) = settled_on(alloc, case, hashes, rtype)? {
        return Ok(verdict);
    }
    if let Some(hope) = hope_for(alloc, case, shared, hashes, rtype)? {
        // Where nothing is kept it goes before memory is asked for.
        trail.set_hope(hope);
        let unknown = case.table().unknown(alloc)?;
        return Ok(Verdict::Pending(unknown));
    }
    if has_anchor(case.anchors(), hashes.name()) {
        return Ok(Verdict::Bogus);
    }
    Ok(Verdict::Indeterminate)
}

/// What the trust of the case settles at the name that the hashes are kept for: none depends on the trust, so that
/// they serve each.
fn settled_on<'a>(
    alloc: Global,
    case: &Case<'a>,
    hashes: &Hashes<'a>,
    rtype: RecordType,
) -> Result<Option<Verdict<'a>>, AllocError>
    requires { hashes.now.rrsets ≡ case.now.rrsets }
    ensures { IfOk result (λ found. MatchOption found
        (¬ IsSettled (SecuredIn case.now.trust) case.now.rrsets hashes.now.name rtype.0)
        (IsSettledAs (SecuredIn case.now.trust) case.now.rrsets hashes.now.name rtype.0)) }
{
    let capture = case.capture();
    let trust = case.trust();
    let view = View::through(alloc, capture, trust, case.denials(), hashes)?;
    Ok(settled(&view, rtype))
}

/// What the evidence, which doesn't settle the question, would settle if each of the entries that the verifier doesn't
/// know were valid. Where there are none, nothing is worked out.
fn hope_for<'a>(
    alloc: Global,
    case: &Case<'a>,
    shared: &mut Shared<'a>,
    hashes: &Hashes<'a>,
    rtype: RecordType,
) -> Result<Option<Hope<'a>>, AllocError>
    requires shared { IsSharedOf case.now shared.now }
    requires rrsets { hashes.now.rrsets ≡ case.now.rrsets }
    ensures may { (meaning : Entry → Answer) (moment : ℕ)
        → IsTableOf meaning moment case.now.rrsets case.now.table
        → ¬ IsSettledBy (basis_of case.now.rrsets case.now.anchors moment meaning) hashes.now.name
        rtype.0
        → IfOk result (λ found. MatchOption found (¬ MayBeSettledBy (basis_of case.now.rrsets
        case.now.anchors moment meaning) hashes.now.name rtype.0)
        (λ hope. MayBeSettledBy (basis_of case.now.rrsets case.now.anchors moment meaning)
        hashes.now.name rtype.0)) }
    ensures hope { IfOk result (λ found. IfSome found (IsHope case.now hashes.now.name rtype.0)) }
    ensures shared { IsSharedOf case.now shared.new }
{
    a_table_is_its_verifier();
    trust_depends_on_what_is_asked();
    unknown_entries_may_turn_out_valid();
    let table = case.table();
    if table.knows_all() {
        return Ok(None);
    }
    let hoped = shared.hopeful_of(alloc, case)?;
    let Some(verdict) = settled_on(alloc, hoped.as_ref(), hashes, rtype)? else {
        return Ok(None);
    };
    Ok(Some(Hope {
        case: hoped,
        verdict,
    }))
}

/// Whether a trust anchor is at or above the name.
fn has_anchor(anchors: &Anchors<'_>, name: &Name) -> bool
    ensures { IsTrue result ↔ HasAnchor anchors.now name.now }
{
    anchors
        .as_slice()
        .iter()
        .any(|anchor| name.is_at_or_below(anchor.owner()))
}
