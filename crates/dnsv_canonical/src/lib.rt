//! RRsets, their signatures, and the octets that a signature signs (RFC 4034, RFC 4035).
#![tactic(auto)]

pub use capture::{Capture, CaptureError};
pub use laws::one_signed_data;
pub use number::{RecordNumber, SignatureNumber, numbered};
pub use rrset::{Rrset, canonical_rrset, make_signed_data, signed_data};
pub use section::forms_rrsets;
pub use signed::{SigningRoom, is_expanded, signed_label_count};

mod by_rrset;
mod canonical;
mod capture;
mod form;
mod laws;
mod number;
mod placed_record;
mod received;
mod records;
mod rrset;
mod section;
mod signed;
