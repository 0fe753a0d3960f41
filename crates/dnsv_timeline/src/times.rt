//! The times of a signature.
use dnsv_records::{Expiration, Inception};

/// When a signature is valid (RFC 4034 3.1.5).
#[derive(Clone, Copy, Debug)]
pub struct Times {
    pub inception: Inception,
    pub expiration: Expiration,
}
