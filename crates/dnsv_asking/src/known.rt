//! The case that questions are judged by, under what is known of signatures.
ghost use Rattle.std.specs.Prelude.{◌≡◌, IfErr, IfOk};
ghost use Rattle.dnsv_answers.specs.declared.heading.Moments.TheVariants.{At};
ghost use Rattle.dnsv_chain.specs.Basis.{IsCaseOf, basis_of};
ghost use Rattle.dnsv_verifier.specs.declared.answer.Answer.{Answer};
ghost use Rattle.dnsv_verifier.specs.declared.entry.Entry.{Entry};
ghost use Rattle.dnsv_files.specs.Told.{IsFaultOf};
ghost use Rattle.dnsv_asking.specs.Judging.{case_of, tells_why};
ghost use Rattle.dnsv_work.specs.Known.{AreMiscountedIn, IsKnown, numbers_said};

use crate::judging::Judging;
use bumpalo::Bump;
use dnsv_answers::Answers;
use dnsv_canonical::Capture;
use dnsv_chain::Anchors;
use dnsv_files::Fault;
use dnsv_questions::Moment;
use dnsv_work::{Said, Span, table_of};
use std::alloc::Global;

/// The case at the moment, under what the files say of signatures. By answers no entry is looked up.
///
/// The fault is that there are more or fewer answers than entries.
pub fn open_case<'a>(
    alloc: Global,
    bump: &'a Bump,
    why: bool,
    moment: Moment,
    held: &'a Capture<'a>,
    anchors: &'a Anchors<'a>,
    said: &Said,
) -> Result<Judging<'a>, Fault>
    ensures known { IfOk result (λ judging. (meaning : Entry → Answer)
        × IsKnown (At moment) held.now.rrsets said.now meaning (numbers_said said.now)
        × IsCaseOf (basis_of held.now.rrsets anchors.now moment meaning) (case_of judging)) }
    ensures why { IfOk result (λ judging. tells_why judging ≡ why) }
    ensures fault { IfErr result (IsFaultOf (AreMiscountedIn (At moment) held.now.rrsets said.now)) }
{
    match said {
        Said::Statements(statements) => {
            let judging = Judging::new(alloc, bump, why, moment, held, anchors, statements)?;
            Ok(judging)
        }
        Said::Answers(answers) => {
            let table = table_of(alloc, bump, held, &Span::At(moment), answers)?;
            let judging = Judging::by_table(alloc, why, anchors, table)?;
            Ok(judging)
        }
    }
}
