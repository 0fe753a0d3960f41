//! A law of verdicts where the evidence has the whole chain of a zone.
ghost use Rattle.std.specs.Prelude.{ℕ};
ghost use Rattle.dnsv_names.specs.Name.{Labels};
ghost use Rattle.dnsv_questions.specs.Question.{IsQuestion};
ghost use Rattle.dnsv_verdict.specs.Complete.{TellsWholeChains};
ghost use Rattle.dnsv_chain.specs.Basis.{Basis};
ghost use Rattle.dnsv_verdict.specs.Verdict.{IsVerdictAt};

use crate::verdict::Verdict;

/// Where nothing answers, the verdict on a question tells what the zone of a whole chain denies.
pub fn a_whole_chain_is_told_by_the_verdict()
    ensures { (basis : Basis) (name : Labels) (t : ℕ) (verdict : Verdict) → IsQuestion name t
        → IsVerdictAt basis name t verdict → TellsWholeChains basis name t verdict }
{}
