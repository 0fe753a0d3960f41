//! A case that many questions are asked of.
ghost use Rattle.std.specs.Prelude.{◌≡◌, ◌⊎◌, [], IfErr, IfOk, IsErrOf, IsFalse, IsTrue, None};
ghost use Rattle.dnsv_questions.specs.Question.{IsQuestion};
ghost use Rattle.dnsv_chain.specs.Basis.{IsCaseOf, basis_by, Basis};
ghost use Rattle.dnsv_verdict.specs.Report.{IsKept, IsReport, Refuses, hashes_in};
ghost use Rattle.dnsv_verdict.specs.Traced.{IsKeptWith, IsTrace, IsWayTo};
ghost use Rattle.dnsv_verdict.specs.Way.{IsVerdictOf};
ghost use Rattle.dnsv_verdict.specs.declared.error.VerdictError.{VerdictError};

use crate::case::Case;
use crate::case::shared::Shared;
use crate::error::VerdictError;
use crate::report::Judged;
use crate::traced::Traced;
use dnsv_names::{Name, RecordType};
use std::alloc::Global;
use std::marker::Model;

/// A case that many questions are asked of, with what these share: the case of what may be hoped is made for the first
/// question that needs it, and the hashes for names that were asked last are kept. It takes no more memory however many
/// are asked.
#[derive(Drop)]
pub struct OpenCase<'a> {
    case: Case<'a>,
    shared: Shared<'a>,
}

impl<'a> Model for OpenCase<'a> {
    ghost use Rattle.dnsv_chain.specs.Basis.{CaseContents};
    ghost use Rattle.dnsv_verdict.specs.Shared.{IsSharedOf};

    ghost Value = { CaseContents };

    ghost view = { λ held. held.case };

    ghost invariant = { λ held. IsSharedOf held.case held.shared };
}

impl<'a> OpenCase<'a> {
    /// The case, of which nothing was asked yet. No memory is taken.
    pub fn of(alloc: Global, case: Case<'a>) -> OpenCase<'a>
        ensures { result ≡ case.entry }
    {
        OpenCase {
            case,
            shared: Shared::new(alloc, true),
        }
    }

    /// Another case of the same evidence, as at another moment, of which nothing was asked yet. The hashes for names depend
    /// on the evidence alone, so those that are kept stay. No memory is taken.
    pub fn with_case(self, case: Case<'a>) -> OpenCase<'a>
        requires { case.rrsets ≡ self.rrsets }
        ensures { result ≡ case.entry }
    {
        let shared = self.shared.for_another();
        OpenCase { case, shared }
    }

    /// The case.
    pub fn case(&self) -> &Case<'a>
        ensures { result.now ≡ self.now }
    {
        &self.case
    }

    /// The verdict on the question of a name and a type, as `Case::judge` gives it. A name that was asked before may not be
    /// hashed again: the report counts the digests that it takes all the same. The case stays, also where the question is
    /// refused or memory is.
    pub fn judge(
        &mut self,
        alloc: Global,
        name: &Name,
        rtype: RecordType,
        keeps: bool,
    ) -> Result<Judged<'a>, VerdictError>
        ensures report { (basis : Basis) → IsCaseOf basis self.old
            → IfOk result (λ judged. IsReport basis name.now rtype.0 judged.report) }
        ensures refused { (basis : Basis) → IsCaseOf basis self.old → Refuses basis name.now rtype.0 result }
        ensures question { ¬ IsQuestion name.now rtype.0 → IsErrOf result VerdictError.BadQuestion }
        ensures by_table { (basis : Basis) → IsCaseOf basis self.old
            → IfOk result (λ judged. IsVerdictOf (basis_by self.old) name.now rtype.0 judged.report.links
            judged.report.last judged.report.verdict) }
        ensures kept { IsTrue keeps → IfOk result (λ judged. IsKept self.old rtype.0 judged.report.links
            judged.report.last judged.report.verdict (hashes_in judged) judged.hope) }
        ensures unkept { IsFalse keeps → IfOk result (λ judged. (judged.hashes.items ≡ []) × (judged.hope ≡ None)) }
        ensures same { self.new ≡ self.old }
    {
        let judged = self
            .case
            .judge_sharing(alloc, &mut self.shared, name, rtype, keeps)?;
        Ok(judged)
    }

    /// What the question of a name and a type leads to, as `Case::trace` gives it. A name that was asked before may not be
    /// hashed again. The case stays, also where the question is refused or memory is.
    pub fn trace(
        &mut self,
        alloc: Global,
        name: &Name,
        rtype: RecordType,
    ) -> Result<Traced<'a>, VerdictError>
        ensures trace { (basis : Basis) → IsCaseOf basis self.old → IfOk result (IsTrace basis name.now rtype.0) }
        ensures by_table { (basis : Basis) → IsCaseOf basis self.old
            → IfOk result (IsWayTo (basis_by self.old) name.now rtype.0) }
        ensures kept { IfOk result (IsKeptWith self.old rtype.0) }
        ensures asked { IfOk result (λ traced. IsQuestion name.now rtype.0) }
        ensures question { ¬ IsQuestion name.now rtype.0 → IsErrOf result VerdictError.BadQuestion }
        ensures refused { IfErr result (λ error. (error ≡ VerdictError.OutOfMemory)
            ⊎ ((error ≡ VerdictError.BadQuestion) × (¬ IsQuestion name.now rtype.0))) }
        ensures same { self.new ≡ self.old }
    {
        let traced = self
            .case
            .trace_sharing(alloc, &mut self.shared, name, rtype, true)?;
        Ok(traced)
    }
}
