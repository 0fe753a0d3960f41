//! The lines that derive signatures and keys from a trust anchor down, and tell denials, and how long such lines hold.
//!
//! The lines are those of `dnsv_lines`.
#![tactic(auto)]

pub use denials::add_denial;
pub use derivations::own::add_derivation;
pub use derivations::ways::kept::{KeptWay, first_ways};
pub use derivations::ways::keys::{GoodSignature, key_name, keys_in_order, lowest_good};
pub use derivations::ways::matcher::is_ds_match;
pub use digested::DigestedKey;
pub use evidence::Evidence;
pub use held::add_held;
pub use interval::Times;
pub use laws::{
    denials_follow, derivations_follow, expanded_signatures_follow,
    lines_follow_as_long_as_they_hold, signatures_hold_in_one_interval, unsigned_cuts_follow,
};
pub use places::places_named;
pub use shown::holding_of;
pub use unsigned_cuts::add_cut;

mod denials;
mod derivations;
mod digested;
mod evidence;
mod held;
mod interval;
mod laws;
mod places;
mod shown;
mod todo;
mod unsigned_cuts;
