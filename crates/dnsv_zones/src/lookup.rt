//! The law of lookup.
ghost use Rattle.std.specs.Prelude.{◌≡◌, ℕ};
ghost use Rattle.dnsv_names.specs.Name.{Labels};
ghost use Rattle.dnsv_zones.specs.zones.Zone.{Zone, IsWellFormed};
ghost use Rattle.dnsv_zones.specs.zones.Lookup.{Answer, IsLookup};

/// A law of lookup: a zone has exactly one answer to a question.
pub fn a_question_has_one_answer()
    ensures some { (zone : Zone) (name : Labels) (t : ℕ) → IsWellFormed zone
        → (answer : Answer) × IsLookup zone name t answer }
    ensures one { (zone : Zone) (name : Labels) (t : ℕ) (answer other : Answer) → IsLookup zone name t answer
        → IsLookup zone name t other → answer ≡ other }
{}
