//! Laws of the ways over secure aliases.
//!
//! Each is a function that does nothing and ensures the law, which its caller learns.
ghost use Rattle.std.specs.Prelude.{◌≡◌, ◌↔◌, ℕ, List};
ghost use Rattle.dnsv_names.specs.Name.{Labels};
ghost use Rattle.dnsv_chain.specs.Basis.{Basis};
ghost use Rattle.dnsv_verdict.specs.Way.{IsRefusedFor, IsStoppedAt, IsVerdictOf};
ghost use Rattle.dnsv_verdict.specs.declared.error.VerdictError.{VerdictError};
ghost use Rattle.dnsv_verdict.specs.declared.link.Link.{Link};

use crate::error::VerdictError;
use crate::link::Link;
use crate::verdict::Verdict;

/// A question has one way to one verdict, or it is refused for one reason: never two of them, nor one of each, and it
/// can't be that it has neither.
pub fn a_question_leads_one_way()
    ensures verdict { (basis : Basis) (name : Labels) (t : ℕ) (links others : List Link) (last end : Labels)
        (a b : Verdict) → IsVerdictOf basis name t links last a → IsVerdictOf basis name t others end b
        → (links ≡ others) × (last ≡ end) × (a ≡ b) }
    ensures refusal { (basis : Basis) (name : Labels) (t : ℕ) (a b : VerdictError)
        → IsRefusedFor basis name t a → IsRefusedFor basis name t b → a ≡ b }
    ensures not_both { (basis : Basis) (name : Labels) (t : ℕ) (links : List Link) (last : Labels) (verdict : Verdict)
        (error : VerdictError) → IsVerdictOf basis name t links last verdict → ¬ IsRefusedFor basis name t error }
    // The cases ask whether records prove something, which their definitions don't decide; so the law says that it
    // can't be that there is none, and not which one it is.
    ensures some { (basis : Basis) (name : Labels) (t : ℕ)
        → ((links : List Link) (last : Labels) (verdict : Verdict) → ¬ IsVerdictOf basis name t links last verdict)
        → ((error : VerdictError) → ¬ IsRefusedFor basis name t error) → ⊥ }
{}

/// A question whose way stops is refused for the alias at which it does, and one that is refused has a way that stops so:
/// these links, this alias and this error, and no others.
pub fn a_question_stops_at_one_alias()
    ensures refusal { (basis : Basis) (name : Labels) (t : ℕ) (error : VerdictError) → IsRefusedFor basis name t error
        ↔ ((links : List Link) × (alias : Link) × IsStoppedAt basis name t links alias error) }
    ensures one { (basis : Basis) (name : Labels) (t : ℕ) (links others : List Link) (alias other : Link)
        (a b : VerdictError) → IsStoppedAt basis name t links alias a → IsStoppedAt basis name t others other b
        → (links ≡ others) × (alias ≡ other) × (a ≡ b) }
{}
