//! Trust anchors and files of them, which records of a DS RRset count, and values by the owner of their records
//! (RFC 4033 2, RFC 4509 3).
//!
//! Nothing here asks for a capture or a verifier, so it is proved beside these.
#![tactic(auto)]

pub use anchor::Anchor;
pub use anchors::{Anchors, AnchorsError, a_text_is_one_list_of_anchors};
pub use by_owner::key::OwnerKey;
pub use by_owner::{ByOwner, add, add_at, at};
pub use hex_field::{digits_of, hex_octets, push_decoded};
pub use usable::{goes_before, has_usable, is_usable, leading_digest_type};

mod anchor;
mod anchors;
mod by_owner;
mod hex_field;
mod usable;
