//! What the definitions of what a text says and of its fault say of each other.
ghost use Rattle.std.specs.Prelude.{◌≡◌, ◌⊎◌, List, Option, ℕ};
ghost use Rattle.dnsv_files.specs.Opening.Macs.{HasMacs, IsFaultOfMacs};
ghost use Rattle.dnsv_files.specs.declared.status.Fault.{Fault};

use dnsv_names::a_text_has_one_list_of_lines;

/// A text is one list of the MACs of requests, or has one fault, and never both.
pub fn one_list_of_macs_or_fault()
    ensures some { (text : List ℕ) → ((macs : List (Option (List ℕ))) × HasMacs text macs)
        ⊎ ((fault : Fault) × IsFaultOfMacs text fault) }
    ensures macs { (text : List ℕ) (a b : List (Option (List ℕ))) → HasMacs text a → HasMacs text b → a ≡ b }
    ensures fault { (text : List ℕ) (a b : Fault) → IsFaultOfMacs text a → IsFaultOfMacs text b → a ≡ b }
    ensures apart { (text : List ℕ) (macs : List (Option (List ℕ))) (fault : Fault) → HasMacs text macs
        → IsFaultOfMacs text fault → ⊥ }
{
    a_text_has_one_list_of_lines();
}
