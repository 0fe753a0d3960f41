//! A law of the text of a timeline.
//!
//! It is a function that does nothing and ensures the law, which its caller learns.
ghost use Rattle.std.specs.Prelude.{◌≡◌, Bool, List, ℕ};
ghost use Rattle.dnsv_canonical.specs.Rrsets.{ReceivedRrset};
ghost use Rattle.dnsv_names.specs.Name.{Labels};
ghost use Rattle.dnsv_questions.specs.declared.format.Format.{Format};
ghost use Rattle.dnsv_timeline.specs.declared.stretch.Stretch.{Stretch};
ghost use Rattle.dnsv_moments.specs.validity.Said.{Said};
ghost use Rattle.dnsv_moments.specs.texts.Text.{IsTimelineText};

/// Stretches have at most one text in a format, with or without kinds alone.
pub fn a_timeline_has_one_text()
    ensures { (format : Format) (kinds : Bool) (rrsets : List ReceivedRrset) (name : Labels) (t from to : ℕ)
        (stretches : List (Stretch Said)) (a b : List ℕ)
        → IsTimelineText format kinds rrsets name t from to stretches a
        → IsTimelineText format kinds rrsets name t from to stretches b → a ≡ b }
{}
