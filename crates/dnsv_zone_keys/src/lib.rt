//! The keys of zones: which of them a signature names, what a verifier says of a signature under one, and which of them
//! trust anchors and DS records vouch for.
#![tactic(auto)]

pub use answers::{answer_under, asked_octets};
pub use keys::index::KeyIndex;
pub use keys::placed::PlacedKey;
pub use keys::{is_named, is_zone_key, zone_keys};
pub use vouchers::asked::Asked;
pub use vouchers::voucher_facts;
pub use vouchers::zone_keys::ZoneKeys;

mod answers;
mod keys;
mod vouchers;
