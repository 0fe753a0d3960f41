//! The verdict on a question of a case.
ghost use Rattle.std.specs.Prelude.{◌≡◌, [], IfOk, IsErrOf, IsFalse, IsTrue, None};
ghost use Rattle.dnsv_questions.specs.Question.{IsQuestion};
ghost use Rattle.dnsv_chain.specs.Basis.{IsCaseOf, basis_by, Basis};
ghost use Rattle.dnsv_verdict.specs.Shared.{IsSharedOf};
ghost use Rattle.dnsv_verdict.specs.Report.{IsKept, IsReport, Refuses, hashes_in};
ghost use Rattle.dnsv_verdict.specs.Way.{IsVerdictOf};
ghost use Rattle.dnsv_verdict.specs.declared.error.VerdictError.{VerdictError};

use crate::case::Case;
use crate::case::shared::Shared;
use crate::error::VerdictError;
use crate::report::Judged;
use crate::traced::Traced;
use dnsv_names::{Name, RecordType};
use std::alloc::Global;

impl<'a> Case<'a> {
    /// The verdict on the question of a name and a type, by this case: that of `validate`, with what the verdicts on its
    /// way were found by, where that is kept. The verifier isn't asked. Each name of the way is hashed once with each
    /// iterations and salt; where nothing is kept, no more memory is taken than for the report.
    ///
    /// What it gives depends on the case and the question alone, so questions may be judged one after another, or one
    /// of them again. Nothing is shared between them: `OpenCase` is for many.
    pub fn judge(
        &self,
        alloc: Global,
        name: &Name,
        rtype: RecordType,
        keeps: bool,
    ) -> Result<Judged<'a>, VerdictError>
        ensures report { (basis : Basis) → IsCaseOf basis self.now
            → IfOk result (λ judged. IsReport basis name.now rtype.0 judged.report) }
        ensures refused { (basis : Basis) → IsCaseOf basis self.now → Refuses basis name.now rtype.0 result }
        // A type that can't be asked at the name is refused, whatever the case.
        ensures question { ¬ IsQuestion name.now rtype.0 → IsErrOf result VerdictError.BadQuestion }
        // The table leads to the verdict by itself.
        ensures by_table { (basis : Basis) → IsCaseOf basis self.now
            → IfOk result (λ judged. IsVerdictOf (basis_by self.now) name.now rtype.0 judged.report.links
            judged.report.last judged.report.verdict) }
        ensures kept { IsTrue keeps → IfOk result (λ judged. IsKept self.now rtype.0 judged.report.links
            judged.report.last judged.report.verdict (hashes_in judged) judged.hope) }
        ensures unkept { IsFalse keeps → IfOk result (λ judged. (judged.hashes.items ≡ []) × (judged.hope ≡ None)) }
    {
        let mut shared = Shared::new(alloc, false);
        self.judge_sharing(alloc, &mut shared, name, rtype, keeps)
    }

    /// The same, where questions share what any of them needed: what `shared` has serves this one, and what this one
    /// makes is added.
    pub(crate) fn judge_sharing(
        &self,
        alloc: Global,
        shared: &mut Shared<'a>,
        name: &Name,
        rtype: RecordType,
        keeps: bool,
    ) -> Result<Judged<'a>, VerdictError>
        requires { IsSharedOf self.now shared.now }
        ensures report { (basis : Basis) → IsCaseOf basis self.now
            → IfOk result (λ judged. IsReport basis name.now rtype.0 judged.report) }
        ensures refused { (basis : Basis) → IsCaseOf basis self.now → Refuses basis name.now rtype.0 result }
        ensures question { ¬ IsQuestion name.now rtype.0 → IsErrOf result VerdictError.BadQuestion }
        ensures by_table { (basis : Basis) → IsCaseOf basis self.now
            → IfOk result (λ judged. IsVerdictOf (basis_by self.now) name.now rtype.0 judged.report.links
            judged.report.last judged.report.verdict) }
        ensures kept { IsTrue keeps → IfOk result (λ judged. IsKept self.now rtype.0 judged.report.links
            judged.report.last judged.report.verdict (hashes_in judged) judged.hope) }
        ensures unkept { IsFalse keeps → IfOk result (λ judged. (judged.hashes.items ≡ []) × (judged.hope ≡ None)) }
        // Also where the question is refused, or memory is.
        ensures shared { IsSharedOf self.now shared.new }
    {
        let traced = self.trace_sharing(alloc, shared, name, rtype, keeps)?;
        match traced {
            Traced::Reached(judged) => Ok(judged),
            Traced::Stopped(stopped) => Err(stopped.error),
        }
    }
}
