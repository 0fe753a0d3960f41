//! What holds for a verdict, as lines: what derives each link of its way and the verdict at the last name, or what may be
//! hoped of it.
#![tactic(auto)]

pub use at::{At, evidence_of};
pub use derivation::{Derivation, Outcome};
pub use deriver::Deriver;
pub use links::add_links;
pub use verdict::{add_verdict, is_settled, is_unproved};

mod at;
mod derivation;
mod deriver;
mod links;
mod told;
mod verdict;
mod wildcard_cut;
