//! Laws of derivations, of denials, and of how long lines hold.
//!
//! Each is a function that does nothing and ensures the law, which its caller learns.
ghost use Rattle.std.specs.Prelude.{◌≡◌, ◌≤◌, ℕ, [], List};
ghost use Rattle.dnsv_names.specs.Name.{Labels};
ghost use Rattle.dnsv_derivations.specs.Explained.{Setting};
ghost use Rattle.dnsv_denial.specs.declared.proving.shown_denial.ShownDenial.{ShownDenial};
ghost use Rattle.dnsv_denial.specs.declared.unsigned_cuts.shown_cut.ShownCut.{ShownCut};
ghost use Rattle.dnsv_derivations.specs.Denials.{IsDenialTold, IsExpandedTold, IsShownDenial};
ghost use Rattle.dnsv_derivations.specs.derivations.Derivations.{IsDerivation, Subject};
ghost use Rattle.dnsv_derivations.specs.Following.{EachFollows, at_moment};
ghost use Rattle.dnsv_derivations.specs.intervals.Holding.{IsHolding, IsHoldingOf};
ghost use Rattle.dnsv_derivations.specs.unsigned_cuts.ShownCuts.{IsCutShownBy, IsCutTold};

use crate::interval::Times;
use dnsv_canonical::SignatureNumber;
use dnsv_lines::{Interval, Line};

/// Lines of which each follows from those before it do so at each moment of the interval in which the signatures that
/// they show are valid: so what they call trusted is trusted then too.
pub fn lines_follow_as_long_as_they_hold()
    ensures { (setting : Setting) (lines : List Line) (interval : Interval) (moment : ℕ) → EachFollows setting [] lines
        → IsHoldingOf setting.rrsets lines setting.moment interval → interval.from ≤ moment → moment ≤ interval.to
        → EachFollows (at_moment setting moment) [] lines }
{}

/// Signatures hold in one greatest interval around a moment.
pub fn signatures_hold_in_one_interval()
    ensures { (signatures : List Times) (moment : ℕ) (a b : Interval) → IsHolding signatures moment a
        → IsHolding signatures moment b → a ≡ b }
{}

/// Each line of a derivation follows from those before it: from what was said before the derivation, and from the lines
/// of it that come first. So what a derivation says is true.
pub fn derivations_follow()
    ensures { (setting : Setting) (before lines : List Line) (subject : Subject) → IsDerivation setting before subject lines
        → EachFollows setting before lines }
{}

/// So does each line of a denial that the evidence shows.
pub fn denials_follow()
    ensures { (setting : Setting) (name : Labels) (shown : ShownDenial) (before lines : List Line)
        → IsShownDenial setting name shown → IsDenialTold setting name shown before lines → EachFollows setting before lines }
{}

/// And so does each line of a signature behind which a wildcard is.
pub fn expanded_signatures_follow()
    ensures { (setting : Setting) (name : Labels) (number : SignatureNumber) (shown : ShownDenial) (before lines : List Line)
        → IsShownDenial setting name shown → IsExpandedTold setting name number shown before lines
        → EachFollows setting before lines }
{}

/// And so does each line of the name from which on a name may be unsigned.
pub fn unsigned_cuts_follow()
    ensures { (setting : Setting) (name : Labels) (cut : ShownCut) (before lines : List Line)
        → IsCutShownBy setting name cut → IsCutTold setting name cut before lines
        → EachFollows setting before lines }
{}
