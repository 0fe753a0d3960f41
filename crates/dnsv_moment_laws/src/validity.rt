//! Laws of moments.
//!
//! Each is a function that does nothing and ensures the law, which its caller learns.
ghost use Rattle.std.specs.Prelude.{◌≡◌, ◌↔◌, ◌≤◌, ℕ, List};
ghost use Rattle.dnsv_canonical.specs.Rrsets.{ReceivedRrset};
ghost use Rattle.dnsv_names.specs.Name.{Labels};
ghost use Rattle.dnsv_moments.specs.Dates.{AreTimesOf};
ghost use Rattle.dnsv_timeline.specs.Timeline.{AreSameValid, DependsOn, IsTimelineBy};
ghost use Rattle.dnsv_timeline.specs.declared.stretch.Stretch.{Stretch};
ghost use Rattle.dnsv_timeline.specs.declared.times.Times.{Times};
ghost use Rattle.dnsv_questions.specs.declared.format.Format.{Format};
ghost use Rattle.dnsv_lines.specs.declared.line.Line.{Line};
ghost use Rattle.dnsv_holding.specs.Derived.{AreLinksDerived, IsDerivationOf};
ghost use Rattle.dnsv_moments.specs.validity.Said.{IsSaid, IsSaidAt, Said};
ghost use Rattle.dnsv_moment_laws.specs.Alike.{AreAnsweredAlike};
ghost use Rattle.dnsv_moments.specs.validity.SameValid.{AreSignaturesSameValid, HaveTimes, at_moment};
ghost use Rattle.dnsv_verifier.specs.Within.{IsAskedWithin, IsTableWithin};
ghost use Rattle.dnsv_chain.specs.Basis.{Basis, with_meaning};
ghost use Rattle.dnsv_verdict.specs.Verdict.{IsVerdictAt};
ghost use Rattle.dnsv_verdict.specs.Way.{IsRefusal, IsVerdictOf};
ghost use Rattle.dnsv_verdict.specs.declared.error.VerdictError.{VerdictError};
ghost use Rattle.dnsv_verdict.specs.declared.link.Link.{Link};
ghost use Rattle.dnsv_verifier.specs.declared.answer.Answer.{Answer};
ghost use Rattle.dnsv_verifier.specs.declared.entry.Entry.{Entry};
ghost use Rattle.dnsv_verifier.specs.Table.{IsTableOf, TableContents, table_answer};

use dnsv_chain::trust_depends_on_what_is_asked;
use dnsv_verdict::{Verdict, a_question_leads_one_way, a_question_stops_at_one_alias};

/// Where the same signatures of the evidence are valid at two moments (RFC 4034 3.1.5), the same is said: the verdict at
/// a name, the verdict on a question with the way that leads to it, and what a question is refused for.
pub fn the_same_signatures_give_the_same_verdict()
    ensures at_a_name { (basis : Basis) (other : ℕ) (name : Labels) (t : ℕ) (verdict : Verdict)
        → AreSignaturesSameValid basis.rrsets basis.moment other
        → IsVerdictAt basis name t verdict → IsVerdictAt (at_moment basis other) name t verdict }
    ensures of_a_question { (basis : Basis) (other : ℕ) (name : Labels) (t : ℕ) (links : List Link) (last : Labels)
        (verdict : Verdict)
        → AreSignaturesSameValid basis.rrsets basis.moment other
        → IsVerdictOf basis name t links last verdict
        → IsVerdictOf (at_moment basis other) name t links last verdict }
    ensures refused { (basis : Basis) (other : ℕ) (name : Labels) (t : ℕ) (error : VerdictError)
        → AreSignaturesSameValid basis.rrsets basis.moment other
        → IsRefusal basis name t error → IsRefusal (at_moment basis other) name t error }
{}

/// And the same is derived: the lines of an explanation that derive the links of the way and the verdict, or what is hoped
/// of it. So the same signatures are shown.
pub fn the_same_signatures_derive_the_same()
    ensures links { (basis : Basis) (other : ℕ) (links : List Link) (lines : List Line)
        → AreSignaturesSameValid basis.rrsets basis.moment other
        → AreLinksDerived basis links lines → AreLinksDerived (at_moment basis other) links lines }
    ensures verdict { (basis : Basis) (other : ℕ) (t : ℕ) (links : List Link) (last : Labels) (verdict : Verdict)
        (lines : List Line)
        → AreSignaturesSameValid basis.rrsets basis.moment other
        → IsDerivationOf basis t links last verdict lines
        → IsDerivationOf (at_moment basis other) t links last verdict lines }
{}

/// Where a timeline has the times of each signature of the evidence, moments at which the same times are valid are
/// moments at which the same signatures are.
pub fn the_times_of_all_signatures_tell()
    // `times_of_all` gives such a list.
    ensures have { (rrsets : List ReceivedRrset) (signatures : List Times)
        → AreTimesOf rrsets signatures → HaveTimes rrsets signatures }
    ensures same { (rrsets : List ReceivedRrset) (signatures : List Times) (moment other : ℕ)
        → HaveTimes rrsets signatures → AreSameValid signatures moment other
        → AreSignaturesSameValid rrsets moment other }
{}

/// What is said of a question at a moment, which is what `check` tells of it with the signatures that derive it, depends
/// on the moment through the validity of the evidence's signatures alone. So it has a timeline.
pub fn what_is_said_depends_on_signatures()
    ensures { (format : Format) (basis : Basis) (name : Labels) (t : ℕ) (signatures : List Times)
        → HaveTimes basis.rrsets signatures → DependsOn (IsSaidAt format basis name t) signatures }
{}

/// And it depends on the verifier through what is asked at the moment alone; so does what a question is refused for.
pub fn what_is_said_depends_on_what_is_asked()
    ensures said { (format : Format) (basis : Basis) (other : Entry → Answer) (name : Labels) (t : ℕ) (said : Said)
        → AreAnsweredAlike basis other
        → IsSaid format basis name t said → IsSaid format (with_meaning basis other) name t said }
    ensures refused { (basis : Basis) (other : Entry → Answer) (name : Labels) (t : ℕ) (error : VerdictError)
        → AreAnsweredAlike basis other
        → IsRefusal basis name t error → IsRefusal (with_meaning basis other) name t error }
{
    trust_depends_on_what_is_asked();
}

/// At a moment one thing is told of a question, and one list of signatures derives it. So it has at most one timeline.
pub fn one_thing_is_said_of_a_question()
    ensures said { (format : Format) (basis : Basis) (name : Labels) (t : ℕ) (said other : Said)
        → IsSaid format basis name t said → IsSaid format basis name t other → said ≡ other }
    ensures timeline { (format : Format) (basis : Basis) (name : Labels) (t from to : ℕ)
        (stretches others : List (Stretch Said))
        → IsTimelineBy (IsSaidAt format basis name t) from to stretches
        → IsTimelineBy (IsSaidAt format basis name t) from to others → stretches ≡ others }
{
    a_question_leads_one_way();
    a_question_stops_at_one_alias();
}

/// A table of what a verifier says of each entry that may be verified at some moment of a range serves in the verifier's
/// place at each moment of it: so the verifier is asked of each entry once, however many moments are judged.
pub fn a_table_for_a_range_serves_each_moment()
    ensures answer { (meaning : Entry → Answer) (from to : ℕ) (rrsets : List ReceivedRrset) (within : TableContents)
        → IsTableWithin meaning from to rrsets within
        → (entry : Entry) → IsAskedWithin from to rrsets entry → table_answer within entry ≡ meaning entry }
    ensures table { (meaning : Entry → Answer) (from to : ℕ) (rrsets : List ReceivedRrset) (within : TableContents)
        (moment : ℕ) (contents : TableContents)
        → IsTableWithin meaning from to rrsets within → from ≤ moment → moment ≤ to
        → (IsTableOf (table_answer within) moment rrsets contents ↔ IsTableOf meaning moment rrsets contents) }
{}
