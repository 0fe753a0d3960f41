//! What the evidence says, as far as it costs something to mend.
//!
//! Zones are known by their number of labels, since all of them are at or above the name that is asked for.

pub mod keys;
pub mod signature;
pub mod zone;
