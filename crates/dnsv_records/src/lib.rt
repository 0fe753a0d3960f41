//! The RDATA of DNSSEC's records (RFC 4034, RFC 5155): each value has one spelling in octets.
#![tactic(auto)]

pub use base32hex::{base32hex_read, base32hex_write};
pub use bitmap::TypeBitmap;
pub use dnskey::tag::key_tag;
pub use dnskey::{Dnskey, DnskeyFlags};
pub use ds::Ds;
pub use error::{Field, RecordError};
pub use laws::{base32hex_laws, bitmap_laws, record_laws, records_are_decided};
pub use nsec::Nsec;
pub use nsec3::{HashAlgorithm, Iterations, Nsec3, Nsec3Flags, Nsec3Parameters, UsableNsec3};
pub use number::{Algorithm, DigestType, KeyTag};
pub use octets::Octets;
pub use rrsig::Rrsig;
pub use time::{Expiration, Inception, time_valid};

mod base32hex;
mod bitmap;
mod dnskey;
mod ds;
mod error;
mod laws;
mod nsec;
mod nsec3;
mod number;
mod octets;
mod rrsig;
mod time;
