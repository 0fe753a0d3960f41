//! Each file of octets is shown and listed, or refused, or too long.
ghost use Rattle.std.specs.Prelude.{◌⊎◌, List, ℕ};
ghost use Rattle.dnsv_names.specs.Octets.{AreOctets};
ghost use Rattle.dnsv_message.specs.Streams.Frames.{IsTooLong};
ghost use Rattle.dnsv_files.specs.Files.Capture.{AnyMessage, IsRefusal, NewEvidence};
ghost use Rattle.dnsv_files.specs.declared.opening.Opening.TheVariants.{Plain};
ghost use Rattle.dnsv_questions.specs.declared.format.Format.{Format};
ghost use Rattle.dnsv_work.specs.Listing.{IsListing};
ghost use Rattle.dnsv_work.specs.Showing.{IsShowing};
ghost use Rattle.dnsv_files.specs.declared.status.Place.{Place};
ghost use Rattle.dnsv_files.specs.declared.status.Refusal.{Refusal};

use dnsv_canonical::one_signed_data;
use dnsv_message::{message_or_fault, no_fault_of_memory, one_answer};
use dnsv_rrsets::{evidence_or_one_refusal, rrsets_are_well_formed};

/// A file of octets is shown, or refused, or has an octet too many.
pub fn every_file_is_shown_or_refused()
    ensures { (file : List ℕ) → AreOctets file → ((text : List ℕ) × IsShowing file text)
        ⊎ (((why : Refusal) × (place : Place) × IsRefusal AnyMessage Plain file why place) ⊎ IsTooLong file) }
{
    one_answer();
    message_or_fault();
    no_fault_of_memory();
}

/// A file of octets is listed, or refused, or has an octet too many.
pub fn every_file_is_listed_or_refused()
    ensures { (format : Format) (moment : ℕ) (file : List ℕ) → AreOctets file
        → ((text : List ℕ) × IsListing format moment file text)
        ⊎ (((why : Refusal) × (place : Place) × IsRefusal NewEvidence Plain file why place) ⊎ IsTooLong file) }
{
    one_answer();
    message_or_fault();
    no_fault_of_memory();
    evidence_or_one_refusal();
    one_signed_data();
    rrsets_are_well_formed();
}
