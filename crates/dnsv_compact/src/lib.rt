//! The compact list: what a verifier is asked of a capture, each octet of keys, records and signatures once.
//!
//! Each entry is reported by the number of its key and by that of an RRset and of its signature, from which its signed
//! octets are put together again.
#![tactic(auto)]

pub use front::front_of;
pub use key::ListedKey;
pub use list::CompactList;
pub use place::Place;

mod front;
mod key;
mod list;
mod named;
mod place;
mod signed;
