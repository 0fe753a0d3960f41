//! What a question of a case leads to, also where its way stops.
ghost use Rattle.std.specs.Prelude.{◌≡◌, ◌⊎◌, IfErr, IfOk, IsErrOf, IsFalse, IsTrue, List};
ghost use Rattle.std.specs.List.{AllByRecursion};
ghost use Rattle.dnsv_names.specs.Count.{counted};
ghost use Rattle.dnsv_names.specs.Name.{IsName};
ghost use Rattle.dnsv_records.specs.declared.nsec3.Nsec3Parameters.{Nsec3Parameters};
ghost use Rattle.dnsv_canonical.specs.Evidence.{AreParameters, nsec3_rdata};
ghost use Rattle.dnsv_questions.specs.Question.{IsQuestion};
ghost use Rattle.dnsv_chain.specs.Basis.{IsCaseOf, basis_by, Basis};
ghost use Rattle.dnsv_verdict.specs.Shared.{IsSharedOf};
ghost use Rattle.dnsv_verdict.specs.Report.Hashed.{IsFewHashedOn, IsNumberHashedOn, hashes_on};
ghost use Rattle.dnsv_verdict.specs.Traced.{IsBare, IsKeptWith, IsTrace, IsWayTo};
ghost use Rattle.dnsv_verdict.specs.Way.{names_on};
ghost use Rattle.dnsv_verdict.specs.declared.error.VerdictError.{VerdictError};

use crate::case::Case;
use crate::case::shared::Shared;
use crate::error::VerdictError;
use crate::laws::complete::a_whole_chain_is_told_by_the_verdict;
use crate::link::Link;
use crate::report::{Judged, Report};
use crate::traced::{StoppedWay, Traced};
use crate::trail::Trail;
use crate::way::{End, Followed, Way, follow};
use dnsv_names::{Count, Name, RecordType};
use dnsv_questions::is_question;
use dnsv_verifier::a_table_is_its_verifier;
use std::alloc::Global;

impl<'a> Case<'a> {
    /// What the question of a name and a type leads to, by this case: the verdict, as `judge` gives it, or the alias
    /// that its way stops at, where `judge` gives the stop's error. What the verdicts on the way were found by is kept.
    /// The verifier isn't asked.
    ///
    /// `BadQuestion` just where the type can't be asked at the name.
    pub fn trace(
        &self,
        alloc: Global,
        name: &Name,
        rtype: RecordType,
    ) -> Result<Traced<'a>, VerdictError>
        ensures trace { (basis : Basis) → IsCaseOf basis self.now → IfOk result (IsTrace basis name.now rtype.0) }
        // The table leads there by itself.
        ensures by_table { (basis : Basis) → IsCaseOf basis self.now
            → IfOk result (IsWayTo (basis_by self.now) name.now rtype.0) }
        ensures kept { IfOk result (IsKeptWith self.now rtype.0) }
        ensures asked { IfOk result (λ traced. IsQuestion name.now rtype.0) }
        ensures question { ¬ IsQuestion name.now rtype.0 → IsErrOf result VerdictError.BadQuestion }
        // Nothing else is refused, unless memory runs out.
        ensures refused { IfErr result (λ error. (error ≡ VerdictError.OutOfMemory)
            ⊎ ((error ≡ VerdictError.BadQuestion) × (¬ IsQuestion name.now rtype.0))) }
    {
        let mut shared = Shared::new(alloc, false);
        self.trace_sharing(alloc, &mut shared, name, rtype, true)
    }

    /// The same, where questions share what any of them needed: what `shared` has serves this one, and what this one
    /// makes is added. It keeps what the verdicts were found by only if it is to.
    pub(crate) fn trace_sharing(
        &self,
        alloc: Global,
        shared: &mut Shared<'a>,
        name: &Name,
        rtype: RecordType,
        keeps: bool,
    ) -> Result<Traced<'a>, VerdictError>
        requires { IsSharedOf self.now shared.now }
        ensures trace { (basis : Basis) → IsCaseOf basis self.now → IfOk result (IsTrace basis name.now rtype.0) }
        ensures by_table { (basis : Basis) → IsCaseOf basis self.now
            → IfOk result (IsWayTo (basis_by self.now) name.now rtype.0) }
        ensures kept { IsTrue keeps → IfOk result (IsKeptWith self.now rtype.0) }
        ensures unkept { IsFalse keeps → IfOk result IsBare }
        ensures asked { IfOk result (λ traced. IsQuestion name.now rtype.0) }
        ensures question { ¬ IsQuestion name.now rtype.0 → IsErrOf result VerdictError.BadQuestion }
        ensures refused { IfErr result (λ error. (error ≡ VerdictError.OutOfMemory)
            ⊎ ((error ≡ VerdictError.BadQuestion) × (¬ IsQuestion name.now rtype.0))) }
        // Also where the question is refused, or memory is.
        ensures shared { IsSharedOf self.now shared.new }
    {
        if !is_question(name, rtype) {
            return Err(VerdictError::BadQuestion);
        }
        a_whole_chain_is_told_by_the_verdict();
        a_table_is_its_verifier();
        let mut hashed = Count::new();
        let mut trail = Trail::new(alloc, keeps);
        let followed = follow(alloc, self, shared, name, rtype, &mut hashed, &mut trail)?;
        let Followed { way, end } = followed;
        let hashed = exact_hashed(&hashed, self, &way);
        match end {
            End::Reached(verdict) => {
                let report = Report {
                    links: way.links,
                    last: way.last,
                    verdict,
                    asked: self.asked(),
                    hashed,
                };
                Ok(Traced::Reached(Judged {
                    report,
                    hashes: trail.hashes,
                    hope: trail.hope,
                }))
            }
            End::Blocked { alias, error } => {
                Ok(Traced::Stopped(stopped(way, alias, error, trail)))
            }
        }
    }
}

/// The way that stops at the alias at its last name, with the hashes of the trail.
fn stopped<'a>(
    way: Way,
    alias: (usize, usize),
    error: VerdictError,
    trail: Trail<'a>,
) -> StoppedWay<'a>
    ensures links { result.links ≡ way.links }
    ensures alias { result.alias ≡ record { name = way.last; rrset = alias.0; signature = alias.1 } }
    ensures error { result.error ≡ error }
    ensures hashes { result.hashes.items ≡ trail.entry.hashes.items }
{
    let (rrset, signature) = alias;
    StoppedWay {
        links: way.links,
        alias: Link {
            name: way.last,
            rrset,
            signature,
        },
        error,
        hashes: trail.hashes,
    }
}

/// The count of the digests that hash the names of the way: there are so few names, a capture has so few iterations and
/// salts, and a name so few labels, that their number is below the greatest value of a count.
fn exact_hashed(hashed: &Count, case: &Case<'_>, way: &Way) -> u64
    requires hashed { (all : List Nsec3Parameters) → AreParameters (nsec3_rdata case.now.rrsets) all
        → hashed.now ≡ counted 0 (hashes_on (names_on way.now.links way.now.last) all) }
    requires names { AllByRecursion IsName (names_on way.now.links way.now.last) }
    ensures exact { IsNumberHashedOn case.now.rrsets (names_on way.now.links way.now.last) result }
    ensures few { IsFewHashedOn case.now.rrsets (names_on way.now.links way.now.last) result }
{
    // What is true of every capture and of every way.
    let capture = case.capture();
    let _limits = capture.rrsets();
    let _parameters = capture.nsec3_parameters();
    let _links = way.links.as_slice();
    hashed.value()
}
