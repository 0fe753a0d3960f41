//! What the sections of a message hold.
use crate::name_ref::NameRef;
use crate::number::Class;
use crate::rdata_ref::RdataRef;
use dnsv_names::{RecordType, Ttl};

/// The sections of records, in the order of a message (RFC 1035 4.1).
#[derive(Clone, Copy, Debug, PartialEq, Eq, PartialOrd, Ord, Hash)]
pub enum Section {
    Answer,
    Authority,
    Additional,
}

/// What a message asks (RFC 1035 4.1.2).
#[derive(Debug, Drop)]
pub struct Question<'b> {
    pub name: NameRef<'b>,
    pub rtype: RecordType,
    pub class: Class,
}

/// A resource record (RFC 1035 4.1.3).
#[derive(Debug, Drop)]
pub struct Record<'b> {
    pub name: NameRef<'b>,
    pub rtype: RecordType,
    pub class: Class,
    pub ttl: Ttl,
    /// The octets of the RDATA, with every name written out uncompressed as it is spelled.
    pub rdata: RdataRef<'b>,
}
