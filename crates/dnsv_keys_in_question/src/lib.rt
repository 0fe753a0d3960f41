//! Which keys it is a matter of where nothing is proved, as lines: those of the zones that the reasons speak of, each with
//! the lowest DS record, trust anchor and signature that it fits.
#![tactic(auto)]

pub use keys::add_keys_in_question;

mod keys;
mod zones;
