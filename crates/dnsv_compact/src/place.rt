//! Where the parts of an entry are.

/// An entry by the numbers of its parts, each from 1 on: of its key among those of the list, and of the signature that
/// gives it, in the RRset of the capture.
#[derive(Clone, Copy, Debug, PartialEq, Eq)]
pub struct Place {
    pub key: usize,
    pub rrset: usize,
    pub signature: usize,
}
