//! What the definitions of a request's text and of its first fault say of each other, for files of octets.
ghost use Rattle.std.specs.Prelude.{◌≡◌, List, ℕ};
ghost use Rattle.dnsv_names.specs.Octets.{AreOctets};
ghost use Rattle.dnsv_files.specs.Files.{Files};
ghost use Rattle.dnsv_program_laws.specs.Layers.{LayerLaws};
ghost use Rattle.dnsv_program.specs.Run.{IsFirstFault, IsTextAskedFor};
ghost use Rattle.dnsv_files.specs.declared.status.Status.{Status};
ghost use Rattle.dnsv_files.specs.declared.status.Fault.{Fault};
ghost use Rattle.dnsv_commands.specs.declared.request.Request.{Request};

use dnsv_canonical::one_signed_data;
use dnsv_chain::a_text_is_one_list_of_anchors;
use dnsv_explain_laws::a_report_has_one_explanation;
use dnsv_message::{no_fault_of_a_message, one_answer, one_fault, one_message};
use dnsv_moment_laws::{
    a_timeline_has_one_text, one_thing_is_said_of_a_question, what_is_refused_throughout,
};
use dnsv_names::a_text_has_one_reading;
use dnsv_records::record_laws;
use dnsv_rrsets::evidence_or_one_refusal;
use dnsv_tsig::{one_answer as one_opened, one_ring_or_fault};
use dnsv_verdict::a_question_leads_one_way;
use dnsv_verifier::a_table_is_its_verifier;

/// What the layers below say of all that the program reads: it is read in one way.
fn layers()
    ensures { LayerLaws }
{
    a_text_has_one_reading();
    one_message();
    no_fault_of_a_message();
    one_fault();
    one_answer();
    one_opened();
    one_ring_or_fault();
    record_laws();
    one_signed_data();
    evidence_or_one_refusal();
    a_table_is_its_verifier();
    a_text_is_one_list_of_anchors();
    a_question_leads_one_way();
    a_report_has_one_explanation();
    one_thing_is_said_of_a_question();
    what_is_refused_throughout();
    a_timeline_has_one_text();
}

/// A request has at most one text and end for its files.
pub fn one_text()
    ensures { (asked : Request) (files : Files) → AreOctets files.capture
        → (s t : Status) (a b : List ℕ) → IsTextAskedFor asked files s a → IsTextAskedFor asked files t b
        → (s ≡ t) × (a ≡ b) }
{
    layers();
}

/// Files for which a request has a text have no fault.
pub fn no_fault_of_a_text()
    ensures { (asked : Request) (files : Files) → AreOctets files.capture
        → (end : Status) (text : List ℕ) (fault : Fault)
        → IsTextAskedFor asked files end text → IsFirstFault asked files fault → ⊥ }
{
    layers();
}

/// For a request files have at most one first fault.
pub fn one_first_fault()
    ensures { (asked : Request) (files : Files) → AreOctets files.capture → (a b : Fault)
        → IsFirstFault asked files a → IsFirstFault asked files b → a ≡ b }
{
    layers();
}
