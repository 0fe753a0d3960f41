//! Messages that are signed with a shared key (TSIG, RFC 8945), kept as evidence.
#![tactic(auto)]

pub use error::{KeyFileError, TsigError};
pub use key_ring::{Key, KeyRing};
pub use laws::{one_answer, one_ring_or_fault};
pub use opened::{Opened, open};

mod error;
mod key_names;
mod key_ring;
mod laws;
mod mac;
mod opened;
mod signature;
mod tsig;
