//! Laws of explanations.
//!
//! Each is a function that does nothing and ensures the law, which its caller learns.
ghost use Rattle.std.specs.Prelude.{◌≡◌, ◌≤◌, ℕ, [], List, Some, Contains};
ghost use Rattle.dnsv_names.specs.Name.{Labels, SameName};
ghost use Rattle.dnsv_canonical.specs.Rrsets.{IsNumbered, ReceivedRrset};
ghost use Rattle.dnsv_chain.specs.Trusted.{IsKeyOf, IsSecured, IsTrusted};
ghost use Rattle.dnsv_denial.specs.gathering.EvidenceWords.{Chain};
ghost use Rattle.dnsv_derivations.specs.Explained.{Explained, Setting};
ghost use Rattle.dnsv_holding.specs.Explained.{basis_in};
ghost use Rattle.dnsv_verdict.specs.Report.{IsReport};
ghost use Rattle.dnsv_verdict.specs.Settled.NoLess.{case_of};
ghost use Rattle.dnsv_chain.specs.Basis.{Basis, basis_of, with_meaning};
ghost use Rattle.dnsv_verdict.specs.Verdict.{IsSettledVerdict, IsVerdictAt};
ghost use Rattle.dnsv_verdict.specs.Way.{IsRefusedFor, IsVerdictOf};
ghost use Rattle.dnsv_verdict.specs.declared.error.VerdictError.{VerdictError};
ghost use Rattle.dnsv_verdict.specs.declared.link.Link.{Link};
ghost use Rattle.dnsv_verdict.specs.declared.report.Report.{Report};
ghost use Rattle.dnsv_verifier.specs.Admissible.{DnskeyRecord};
ghost use Rattle.dnsv_verifier.specs.Table.{table_answer};
ghost use Rattle.dnsv_verifier.specs.declared.entry.Entry.{Entry};
ghost use Rattle.dnsv_explain_laws.specs.Aliases.{HaveOneTarget};
ghost use Rattle.dnsv_explain.specs.Explanation.{IsExplanation, IsExplanationOf};
ghost use Rattle.dnsv_holding.specs.Holding.{IsUnproved, its_setting, told_kind};
ghost use Rattle.dnsv_holding.specs.Marked.{AnswersMarked};
ghost use Rattle.dnsv_reasons.specs.laws.Once.{AreOnce};
ghost use Rattle.dnsv_derivations.specs.Following.{EachFollows, IsNamed, IsPlaceOf};
ghost use Rattle.dnsv_derivations.specs.Following.Cases.{IsCaseBy};
ghost use Rattle.dnsv_derivations.specs.Following.Parts.{IsPartOf, IsUnusableRecord, IsZoneNamed};
ghost use Rattle.dnsv_derivations.specs.intervals.Holding.{AreShownValidAt};
ghost use Rattle.dnsv_derivations.specs.derivations.Ways.{HasSecured};

use dnsv_chain::{more_evidence_takes_no_trust_away, trust_depends_on_what_is_asked};
use dnsv_lines::{
    Cut, Kind, Line, Part, Reason, RrsetPlace, ShownKey, SignedRrset, TrustedKeys, UntrustedSigner,
    UnusableDs,
};
use dnsv_verdict::Verdict;
use dnsv_verifier::Answer;

/// Lines of which each follows from those before it are true: what they call trusted is trusted, at that zone and with a
/// key so named; what they call signed is good under a trusted key of its signer, of that owner and type, and valid at the
/// moment, and the zone and the key that they name for it are trusted; a part of a proof is what a record of a chain says,
/// of a zone that a line names; a case is shown by records of the zone that it names, or by a DS RRset; a record that they
/// call unusable is one of a DS RRset that has a good signature; and an RRset stands where they say. So the rules suffice to
/// check a text line by line.
pub fn lines_that_follow_are_true()
    ensures trusted { (setting : Setting) (lines : List Line) (keys : TrustedKeys) → EachFollows setting [] lines
        → Contains lines (Line.Trusted keys)
        → (set : ReceivedRrset) × IsNumbered setting.rrsets keys.signature.rrset set
        × IsTrusted setting.meaning setting.moment setting.rrsets setting.anchors set × SameName set.owner keys.zone
        × (key : DnskeyRecord) × IsKeyOf set key × IsNamed key keys.key }
    ensures signed { (setting : Setting) (lines : List Line) (signed : SignedRrset) → EachFollows setting [] lines
        → Contains lines (Line.Signed signed)
        → IsSecured setting.meaning setting.moment setting.rrsets setting.anchors signed.signature.rrset
        signed.signature.signature
        × (rrset : ReceivedRrset) × IsNumbered setting.rrsets signed.signature.rrset rrset
        × SameName rrset.owner signed.owner × (signed.rtype.0 ≡ rrset.rtype) }
    ensures keys { (setting : Setting) (lines : List Line) (signed : SignedRrset) → EachFollows setting [] lines
        → Contains lines (Line.Signed signed)
        → (set : ReceivedRrset) × IsNumbered setting.rrsets signed.keys set
        × IsTrusted setting.meaning setting.moment setting.rrsets setting.anchors set × SameName set.owner signed.zone
        × (key : DnskeyRecord) × IsKeyOf set key × IsNamed key signed.key }
    ensures part { (setting : Setting) (lines : List Line) (part : Part) → EachFollows setting [] lines
        → Contains lines (Line.Part part)
        → (zone : Labels) × (chain : Chain) × IsZoneNamed lines zone chain
        × IsPartOf (IsSecured setting.meaning setting.moment setting.rrsets setting.anchors) setting.rrsets zone chain part }
    ensures cases { (setting : Setting) (lines : List Line) (cut : Cut) → EachFollows setting [] lines
        → Contains lines (Line.Case cut)
        → IsCaseBy (IsSecured setting.meaning setting.moment setting.rrsets setting.anchors) (HasSecured setting)
        setting.rrsets cut.case cut.name cut.zone }
    ensures unusable { (setting : Setting) (lines : List Line) (unusable : UnusableDs) → EachFollows setting [] lines
        → Contains lines (Line.Unusable unusable)
        → IsUnusableRecord setting.rrsets unusable × HasSecured setting unusable.number.rrset }
    ensures places { (setting : Setting) (lines : List Line) (place : RrsetPlace) → EachFollows setting [] lines
        → Contains lines (Line.Rrset place) → IsPlaceOf setting.rrsets place }
    ensures valid { (setting : Setting) (lines : List Line) → EachFollows setting [] lines
        → AreShownValidAt setting.rrsets lines setting.moment }
{}

/// Each line of an explanation follows from those before it, so what it says is true; where the verdict needs more answers,
/// with each entry valid that the verifier doesn't know. Of `proof`, `hope`, `holds`, `reason`, `follows` and `key` lines
/// this says nothing, nor of a `todo` number.
pub fn explanations_follow()
    ensures { (explained : Explained) (t : ℕ) (links : List Link) (last : Labels) (verdict : Verdict) (lines : List Line)
        → IsExplanation explained t links last verdict lines → EachFollows (its_setting explained verdict) [] lines }
{}

/// A verdict that is reported has one explanation: the same inputs give the same lines.
pub fn a_report_has_one_explanation()
    ensures { (basis : Basis) (name : Labels) (t : ℕ) (report : Report) (a b : List Line)
        → IsVerdictOf basis name t report.links report.last report.verdict
        → IsExplanationOf basis t report a → IsExplanationOf basis t report b → a ≡ b }
{}

/// At each moment at which each signature is valid that an explanation shows, and so at each from the first to the last
/// that it tells, the verdicts at the names of its way are no worse: that at the last name, and the aliases of the links.
/// The verifier says Valid of what it did.
pub fn verdicts_are_no_worse_as_long_as_explanations_hold()
    ensures last { (explained : Explained) (t : ℕ) (name : Labels) (links : List Link) (last : Labels) (verdict : Verdict)
        (lines : List Line) (moment : ℕ) (better : Entry → Answer) (other : Verdict)
        → IsVerdictOf (basis_in explained) name t links last verdict → IsSettledVerdict verdict
        → IsExplanation explained t links last verdict lines → AreShownValidAt explained.rrsets lines moment
        → ((entry : Entry) → table_answer explained.table entry ≡ Answer.Valid → better entry ≡ Answer.Valid)
        → IsVerdictAt (basis_of explained.rrsets explained.anchors moment better) last t other
        → case_of other ≤ case_of verdict }
    ensures links { (explained : Explained) (t : ℕ) (name : Labels) (links : List Link) (last : Labels) (verdict : Verdict)
        (lines : List Line) (moment : ℕ) (better : Entry → Answer) (link : Link) (other : Verdict)
        → IsVerdictOf (basis_in explained) name t links last verdict → IsSettledVerdict verdict
        → IsExplanation explained t links last verdict lines → AreShownValidAt explained.rrsets lines moment
        → ((entry : Entry) → table_answer explained.table entry ≡ Answer.Valid → better entry ≡ Answer.Valid)
        → Contains links link
        → IsVerdictAt (basis_of explained.rrsets explained.anchors moment better) link.name t other
        → case_of other ≤ case_of (Verdict.SecureAlias link.rrset link.signature) }
{
    more_evidence_takes_no_trust_away();
}

/// Where all CNAME RRsets of a link's name have one target, and the last name owns none or CNAME is asked, the same holds
/// of the whole question: wherever its aliases then end, its verdict is no worse. It is refused at no moment, whatever
/// the verifier says.
pub fn questions_get_no_worse_verdicts_where_aliases_have_one_target()
    ensures verdict { (explained : Explained) (t : ℕ) (name : Labels) (links : List Link) (last : Labels) (verdict : Verdict)
        (lines : List Line) (moment : ℕ) (better : Entry → Answer) (its_links : List Link) (its_last : Labels)
        (other : Verdict)
        → IsVerdictOf (basis_in explained) name t links last verdict → IsSettledVerdict verdict
        → IsExplanation explained t links last verdict lines → AreShownValidAt explained.rrsets lines moment
        → ((entry : Entry) → table_answer explained.table entry ≡ Answer.Valid → better entry ≡ Answer.Valid)
        → HaveOneTarget explained.rrsets t links last
        → IsVerdictOf (basis_of explained.rrsets explained.anchors moment better) name t its_links its_last other
        → case_of other ≤ case_of verdict }
    ensures refused { (explained : Explained) (t : ℕ) (name : Labels) (links : List Link) (last : Labels) (verdict : Verdict)
        (moment : ℕ) (better : Entry → Answer) (error : VerdictError)
        → IsVerdictOf (basis_in explained) name t links last verdict → HaveOneTarget explained.rrsets t links last
        → ¬ IsRefusedFor (basis_of explained.rrsets explained.anchors moment better) name t error }
{
    more_evidence_takes_no_trust_away();
}

/// With just the entries valid of which lines of a hope tell the numbers, the verdict at the last name is of the kind
/// hoped for.
pub fn marked_entries_settle_what_is_hoped()
    ensures { (basis : Basis) (name : Labels) (t : ℕ) (report : Report) (unknown : List Entry) (lines : List Line)
        (after : Entry → Answer) (verdict : Verdict)
        → IsReport basis name t report → report.verdict ≡ Verdict.Pending unknown → IsExplanationOf basis t report lines
        → AnswersMarked unknown lines basis.meaning after
        → IsVerdictAt (with_meaning basis after) report.last t verdict
        → (kind : Kind) × Contains lines (Line.Hope kind) × (told_kind verdict ≡ Some kind) }
{
    more_evidence_takes_no_trust_away();
    trust_depends_on_what_is_asked();
}

/// Only of a question of which nothing is proved something is said to fail: the explanation of any other verdict has no
/// reason, no signer that isn't trusted, and no key.
pub fn only_unproved_questions_fail()
    ensures reasons { (explained : Explained) (t : ℕ) (links : List Link) (last : Labels) (verdict : Verdict)
        (lines : List Line) → ¬ IsUnproved verdict → IsExplanation explained t links last verdict lines
        → (reason : Reason) → ¬ Contains lines (Line.Reason reason) }
    ensures signers { (explained : Explained) (t : ℕ) (links : List Link) (last : Labels) (verdict : Verdict)
        (lines : List Line) → ¬ IsUnproved verdict → IsExplanation explained t links last verdict lines
        → (untrusted : UntrustedSigner) → ¬ Contains lines (Line.Follows untrusted) }
    ensures keys { (explained : Explained) (t : ℕ) (links : List Link) (last : Labels) (verdict : Verdict)
        (lines : List Line) → ¬ IsUnproved verdict → IsExplanation explained t links last verdict lines
        → (key : ShownKey) → ¬ Contains lines (Line.Key key) }
{}

/// No line stands twice in an explanation.
pub fn no_line_stands_twice()
    ensures { (explained : Explained) (t : ℕ) (links : List Link) (last : Labels) (verdict : Verdict)
        (lines : List Line) → IsExplanation explained t links last verdict lines → AreOnce lines }
{}
