//! What a proof asks of records: of which name, and what of its types.
ghost use Rattle.std.specs.Prelude.{◌≡◌, ◌↔◌, IsTrue};
ghost use Rattle.std.specs.FinSet as set;
ghost use Rattle.dnsv_zones.specs.chains.NsecChain.{IsInBitmap};

use dnsv_names::{Name, RecordType};
use dnsv_records::TypeBitmap;
use dnsv_zones::{denies, is_closed, is_delegation, is_unsigned_delegation};

/// A name that the proof of a denial asks for, by the question's name (RFC 5155 8).
#[derive(Clone, Copy)]
pub enum AskedName {
    /// So many of the question's rightmost labels.
    Above(usize),
    /// The wildcard right below so many of the question's rightmost labels.
    Wildcard(usize),
}

impl AskedName {
    ghost use Rattle.dnsv_proof_forms.specs.words.Asked.{asked_name, IsWithin};

    /// The name, for a question of `name`.
    pub fn of(self, name: &Name) -> Name
        requires { IsWithin name.now self }
        ensures { result ≡ asked_name name.now self }
    {
        match self {
            AskedName::Above(labels) => name.suffix(labels),
            AskedName::Wildcard(labels) => name.source_of_synthesis(labels),
        }
    }
}

/// What the proof of a denial asks of the types at a name.
#[derive(Clone, Copy)]
pub enum AskedTypes {
    /// Nothing: a record is there.
    Any,
    /// A delegation or a DNAME is there, so that nothing of the zone is below (RFC 1034 4.2.1, RFC 6672 2.4).
    Closed,
    /// A delegation is there, with DS or without (RFC 4035 2.3).
    Delegation,
    /// Neither a delegation nor a DNAME is there (RFC 5155 8.3).
    Open,
    /// Neither the type nor CNAME is there (RFC 4035 5.4), and this side of a cut may say so (RFC 6840 4.1).
    Without(RecordType),
    /// A delegation without DS is there (RFC 4035 5.2).
    UnsignedDelegation,
}

impl AskedTypes {
    ghost use Rattle.dnsv_proof_forms.specs.words.Asked.{said_types};

    /// Whether the types are such.
    pub fn are(self, types: &TypeBitmap<'_>) -> bool
        ensures { IsTrue result ↔ said_types self (IsInBitmap (λ t. set.contains types.now t)) }
    {
        match self {
            AskedTypes::Any => true,
            AskedTypes::Closed => is_closed(types),
            AskedTypes::Delegation => is_delegation(types),
            AskedTypes::Open => !is_closed(types),
            AskedTypes::Without(rtype) => denies(types, rtype),
            AskedTypes::UnsignedDelegation => is_unsigned_delegation(types),
        }
    }
}

/// What the proof of a denial asks of the wildcard at the closest encloser.
#[derive(Clone, Copy)]
pub enum AskedWildcard {
    /// It is no node (RFC 4035 5.4, RFC 5155 8.4).
    Absent,
    /// It is an empty non-terminal (RFC 4592 2.2.2).
    Empty,
    /// It is there with neither the type nor CNAME (RFC 4035 3.1.3.4, RFC 5155 8.7), and this side of a cut may say so.
    Without(RecordType),
}

/// What a record is asked to say of a name.
#[derive(Clone, Copy)]
pub enum AskedWord {
    /// It is a node above the question: by NSEC an owner or a next owner is at or below it, by NSEC3 its record shows
    /// neither a delegation nor a DNAME (RFC 4035 5.4, RFC 5155 8.3).
    Encloser,
    /// It is no node: by NSEC3 a record without the Opt-Out flag covers its hash (RFC 4035 5.4, RFC 5155 6).
    Absent,
    /// It is an empty non-terminal (RFC 4592 2.2.2). NSEC3 records have an owner for each and never say this.
    EmptyNonTerminal,
    /// A record with the Opt-Out flag covers its hash (RFC 5155 6). NSEC records never say this.
    OptedOut,
    /// `Absent` or `OptedOut`.
    Covered,
    /// `Absent`, `OptedOut` or `EmptyNonTerminal`.
    RuledOut,
    /// The record is at the name, by its owner or the hash of it, and has such types.
    Types(AskedTypes),
}
