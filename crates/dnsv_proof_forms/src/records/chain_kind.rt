//! The kinds of a zone's chain.

/// Which records a chain of a zone has.
#[derive(Clone, Copy, Debug, PartialEq, Eq)]
pub enum ChainKind {
    /// NSEC records (RFC 4034 4).
    Nsec,
    /// NSEC3 records with the same parameters (RFC 5155 3).
    Nsec3,
}
