//! Laws of texts that check.
//!
//! Each is a function that does nothing and ensures the law, which its caller learns.
ghost use Rattle.std.specs.Prelude.{◌≡◌, ◌≢◌, ◌⊎◌, ◌+◌, ℕ, List, Some, None, Contains, length};
ghost use Rattle.dnsv_names.specs.Name.{IsAtOrBelow, Labels, SameName, rightmost};
ghost use Rattle.dnsv_names.specs.Order.{IsBelow};
ghost use Rattle.dnsv_names.specs.Tree.{wildcard_of};
ghost use Rattle.dnsv_zones.specs.zones.Lookup.{IsLookup};
ghost use Rattle.dnsv_zones.specs.zones.Lookup.Answer.{NoData, NoName};
ghost use Rattle.dnsv_zones.specs.zones.Zone.{Zone};
ghost use Rattle.dnsv_canonical.specs.Rrsets.{ReceivedRrset};
ghost use Rattle.dnsv_chain.specs.Trusted.{IsSecured, IsTrusted};
ghost use Rattle.dnsv_denial.specs.gathering.Evidence.{IsSecuredBy};
ghost use Rattle.dnsv_denial.specs.proving.FirstProof.{ProofRecords};
ghost use Rattle.dnsv_denial.specs.proving.ProofMeaning.{HasProofWithoutCollision};
ghost use Rattle.dnsv_derivations.specs.Denials.{number_told};
ghost use Rattle.dnsv_derivations.specs.Explained.{Explained, Setting};
ghost use Rattle.dnsv_derivations.specs.Following.Cases.{IsCaseBy};
ghost use Rattle.dnsv_derivations.specs.derivations.Ways.{HasSecured};
ghost use Rattle.dnsv_holding.specs.Explained.{basis_in};
ghost use Rattle.dnsv_explain.specs.Explanation.{IsExplanation};
ghost use Rattle.dnsv_holding.specs.Holding.{its_setting};
ghost use Rattle.dnsv_rules.specs.Borne.{BearsOut, IsSetBorne, IsSetTrue};
ghost use Rattle.dnsv_rules.specs.Checked.{Asked, Checks};
ghost use Rattle.dnsv_rules.specs.Explained.{asked_by};
ghost use Rattle.dnsv_rules.specs.Planted.{HoldsType, NeedsEncloser, ShowsNode};
ghost use Rattle.dnsv_rules.specs.Truth.{IsPartsRecord, IsShownSecured, IsTrueProof};
ghost use Rattle.dnsv_verdict.specs.Way.{IsVerdictOf};
ghost use Rattle.dnsv_verdict.specs.declared.link.Link.{Link};

use dnsv_canonical::RecordNumber;
use dnsv_lines::{Cut, Form, Line, Part, Proof, Relation, Role, SignedRrset};
use dnsv_verdict::Verdict;

/// Of a text that checks each proof is true: it rests on records of one chain of its zone, which the text shows to be
/// signed by that zone, and each zone that has these in its chain answers so.
pub fn a_text_that_checks_is_true()
    ensures { (setting : Setting) (asked : Asked) (lines : List Line) (proof : Proof) → Checks setting asked lines
        → Contains lines (Line.Proof proof) → IsTrueProof setting asked lines proof }
{}

/// And its zone is trusted.
pub fn a_proof_of_a_text_is_of_a_trusted_zone()
    ensures { (setting : Setting) (asked : Asked) (lines : List Line) (proof : Proof) → Checks setting asked lines
        → Contains lines (Line.Proof proof)
        → (set : ReceivedRrset) × IsTrusted setting.meaning setting.moment setting.rrsets setting.anchors set
        × SameName set.owner proof.zone }
{}

/// Each explanation checks for the question that it is of: of a verdict that needs more answers, with each entry valid that
/// the verifier doesn't know.
pub fn explanations_check()
    ensures { (explained : Explained) (t : ℕ) (links : List Link) (last : Labels) (verdict : Verdict) (lines : List Line)
        → IsExplanation explained t links last verdict lines
        → Checks (its_setting explained verdict) (asked_by links last t) lines }
{}

/// The lines of an explanation bear out its verdict, and the alias of each link: an answer by the RRset and a signature of
/// it, with what is told against closer names; a denial by a proof of it; and that the name may be unsigned by a case.
pub fn explanations_bear_out_their_verdicts()
    ensures verdict { (explained : Explained) (t : ℕ) (name : Labels) (links : List Link) (last : Labels)
        (verdict : Verdict) (lines : List Line) → IsVerdictOf (basis_in explained) name t links last verdict
        → IsExplanation explained t links last verdict lines
        → BearsOut explained.rrsets (asked_by links last t) lines verdict }
    ensures links { (explained : Explained) (t : ℕ) (name : Labels) (links : List Link) (last : Labels)
        (verdict : Verdict) (lines : List Line) (link : Link)
        → IsVerdictOf (basis_in explained) name t links last verdict
        → IsExplanation explained t links last verdict lines → Contains links link
        → IsSetBorne explained.rrsets lines link.name 5 link.rrset link.signature }
{}

/// Where the lines of a text that checks bear out an answer or an alias, it is so: the signature is good under a trusted key
/// of its signer, and no wildcard is behind it, or there is a record which the signer signed and a part line tells, such
/// that each zone that has it answers for the name from that wildcard, for each type that the wildcard holds.
pub fn answers_that_are_borne_out_are_so()
    ensures { (setting : Setting) (asked : Asked) (lines : List Line) (name : Labels) (t k s : ℕ)
        → Checks setting asked lines → IsSetBorne setting.rrsets lines name t k s
        → IsSetTrue setting lines name t k s }
{}

/// Where the lines of a text that checks bear out a denial, a proof of its zone is true, and each zone that has the records
/// of that proof has no such name, or the name without the type asked. Each record that carries the denial is one that a
/// part line tells, and its RRset has a signature by the zone under a trusted key.
pub fn denials_that_are_borne_out_are_so()
    ensures no_name { (setting : Setting) (asked : Asked) (lines : List Line) (denial : ProofRecords)
        → Checks setting asked lines → BearsOut setting.rrsets asked lines (Verdict.SecureNoName denial)
        → (proof : Proof) × SameName proof.zone denial.zone × (is : IsTrueProof setting asked lines proof)
        × ((zone : Zone) (any : ℕ) → HasProofWithoutCollision setting.rrsets asked.name
        (record { zone = proof.zone; records = is.records }) zone → IsLookup zone asked.name any NoName) }
    ensures no_data { (setting : Setting) (asked : Asked) (lines : List Line) (denial : ProofRecords)
        → Checks setting asked lines → BearsOut setting.rrsets asked lines (Verdict.SecureNoData denial)
        → (proof : Proof) × SameName proof.zone denial.zone × (is : IsTrueProof setting asked lines proof)
        × ((zone : Zone) → HasProofWithoutCollision setting.rrsets asked.name
        (record { zone = proof.zone; records = is.records }) zone
        → (source : Labels) × IsLookup zone asked.name asked.rtype (NoData source)) }
    ensures records { (setting : Setting) (asked : Asked) (lines : List Line) (denial : ProofRecords) (number : RecordNumber)
        → Checks setting asked lines
        → BearsOut setting.rrsets asked lines (Verdict.SecureNoName denial)
        ⊎ BearsOut setting.rrsets asked lines (Verdict.SecureNoData denial) → Contains denial.records number
        → IsPartsRecord lines number
        × IsSecuredBy (IsShownSecured setting lines) setting.rrsets denial.zone number.rrset }
{}

/// Where they bear out that the name may be unsigned from a name on, that is at or above the name asked, and a case of it is
/// so: records of the zone that the case names show it, or a DS RRset that is signed.
pub fn cases_that_are_borne_out_are_so()
    ensures { (setting : Setting) (asked : Asked) (lines : List Line) (cut : Labels) → Checks setting asked lines
        → BearsOut setting.rrsets asked lines (Verdict.Insecure cut)
        → (told : Cut) × SameName told.name cut × IsAtOrBelow asked.name cut
        × IsCaseBy (IsSecured setting.meaning setting.moment setting.rrsets setting.anchors) (HasSecured setting)
        setting.rrsets told.case told.name told.zone }
{}

/// A text with a proof doesn't check without parts, nor where no line calls a signature of the proof's zone good.
pub fn a_text_without_records_does_not_check()
    ensures parts { (setting : Setting) (asked : Asked) (lines : List Line) (proof : Proof)
        → Contains lines (Line.Proof proof) → ((part : Part) → ¬ Contains lines (Line.Part part))
        → ¬ Checks setting asked lines }
    ensures zone { (setting : Setting) (asked : Asked) (lines : List Line) (proof : Proof)
        → Contains lines (Line.Proof proof)
        → ((signed : SignedRrset) → Contains lines (Line.Signed signed) → ¬ SameName signed.zone proof.zone)
        → ¬ Checks setting asked lines }
{}

/// Nor does it where the closest encloser isn't named, or a part is left out: that of the closest encloser, that of the next
/// closer name, which has one label more, or where there is no such name, that of the wildcard.
pub fn a_text_without_a_part_does_not_check()
    ensures encloser { (setting : Setting) (asked : Asked) (lines : List Line) (proof : Proof) (encloser : Labels)
        → Contains lines (Line.Proof proof) → NeedsEncloser proof.form → proof.encloser ≡ Some encloser
        → ((part : Part) → Contains lines (Line.Part part) → ShowsNode part.relation → ¬ SameName part.name encloser)
        → ¬ Checks setting asked lines }
    ensures unnamed { (setting : Setting) (asked : Asked) (lines : List Line) (proof : Proof)
        → Contains lines (Line.Proof proof) → NeedsEncloser proof.form → proof.encloser ≡ None
        → ¬ Checks setting asked lines }
    ensures next_closer { (setting : Setting) (asked : Asked) (lines : List Line) (proof : Proof) (encloser : Labels)
        → Contains lines (Line.Proof proof) → NeedsEncloser proof.form → proof.encloser ≡ Some encloser
        → ((part : Part) → Contains lines (Line.Part part) → part.relation ≡ Relation.Covered
        → ¬ SameName part.name (rightmost asked.name (length encloser + 1))) → ¬ Checks setting asked lines }
    ensures wildcard { (setting : Setting) (asked : Asked) (lines : List Line) (proof : Proof) (encloser : Labels)
        → Contains lines (Line.Proof proof) → proof.form ≡ Form.NoName → proof.encloser ≡ Some encloser
        → ((part : Part) → Contains lines (Line.Part part) → part.relation ≡ Relation.Covered
        → ¬ SameName part.name (wildcard_of encloser)) → ¬ Checks setting asked lines }
{}

/// Nor where the record at the name holds the type.
pub fn a_record_that_holds_the_type_denies_nothing()
    ensures { (setting : Setting) (asked : Asked) (lines : List Line) (proof : Proof)
        → Contains lines (Line.Proof proof) → proof.form ≡ Form.NoData1
        → ((part : Part) (number : RecordNumber) → Contains lines (Line.Part part) → part.relation ≡ Relation.Matched
        → SameName part.name asked.name → number_told part.by ≡ Some number
        → HoldsType setting.rrsets number asked.rtype) → ¬ Checks setting asked lines }
{}

/// Nor where a part alone matches the name, or the wildcard, with a record that holds the type.
pub fn a_part_that_matches_denies_the_type()
    ensures name { (setting : Setting) (asked : Asked) (lines : List Line) (part : Part) (number : RecordNumber)
        → Checks setting asked lines → Contains lines (Line.Part part) → part.relation ≡ Relation.Matched
        → part.role ≡ Role.Name → number_told part.by ≡ Some number
        → ¬ HoldsType setting.rrsets number asked.rtype }
    ensures wildcard { (setting : Setting) (asked : Asked) (lines : List Line) (part : Part) (number : RecordNumber)
        → Checks setting asked lines → Contains lines (Line.Part part) → part.relation ≡ Relation.Matched
        → part.role ≡ Role.Wildcard → number_told part.by ≡ Some number
        → ¬ HoldsType setting.rrsets number asked.rtype }
{}

/// Nor where a case is of a name that isn't at or above the one asked, or a part of a name that none on the question's way
/// asks of: its wildcard isn't right below a name above one of these, or its other name isn't at or above one of them; and
/// a part that is of the name itself is of one of them.
pub fn a_text_of_strange_names_does_not_check()
    ensures case { (setting : Setting) (asked : Asked) (lines : List Line) (cut : Cut)
        → Contains lines (Line.Case cut) → ¬ IsAtOrBelow asked.name cut.name → ¬ Checks setting asked lines }
    ensures part { (setting : Setting) (asked : Asked) (lines : List Line) (part : Part)
        → Contains lines (Line.Part part) → part.role ≢ Role.Wildcard
        → ((name : Labels) → (name ≡ asked.name) ⊎ Contains asked.aliases name → ¬ IsAtOrBelow name part.name)
        → ¬ Checks setting asked lines }
    ensures name { (setting : Setting) (asked : Asked) (lines : List Line) (part : Part)
        → Contains lines (Line.Part part) → part.role ≡ Role.Name
        → ((name : Labels) → (name ≡ asked.name) ⊎ Contains asked.aliases name → ¬ SameName part.name name)
        → ¬ Checks setting asked lines }
    ensures wildcard { (setting : Setting) (asked : Asked) (lines : List Line) (part : Part)
        → Contains lines (Line.Part part) → part.role ≡ Role.Wildcard
        → ((name : Labels) → (name ≡ asked.name) ⊎ Contains asked.aliases name
        → ¬ ((above : Labels) × IsBelow name above × SameName part.name (wildcard_of above)))
        → ¬ Checks setting asked lines }
{}
