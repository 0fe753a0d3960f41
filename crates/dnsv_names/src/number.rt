//! The numbers of records that more than one crate knows.
ghost use Rattle.std.specs.Prelude.{◌≡◌};

/// The number of a record type (RFC 1035 3.2.2).
#[derive(Clone, Copy, Debug, PartialEq, Eq, PartialOrd, Ord, Hash)]
pub struct RecordType(pub u16);

impl RecordType {
    /// An IPv4 address (RFC 1035 3.4.1).
    pub const A: RecordType = RecordType(1);

    /// A name server of a zone (RFC 1035 3.3.11).
    pub const NS: RecordType = RecordType(2);

    /// The name that an alias stands for (RFC 1035 3.3.1).
    pub const CNAME: RecordType = RecordType(5);

    /// The start of a zone (RFC 1035 3.3.13).
    pub const SOA: RecordType = RecordType(6);

    /// A pointer to a name (RFC 1035 3.3.12).
    pub const PTR: RecordType = RecordType(12);

    /// A mail exchange (RFC 1035 3.3.9).
    pub const MX: RecordType = RecordType(15);

    /// An IPv6 address (RFC 3596 2.1).
    pub const AAAA: RecordType = RecordType(28);

    /// The place of a service (RFC 2782).
    pub const SRV: RecordType = RecordType(33);

    /// The name that a whole subtree's alias stands for (RFC 6672 2.1).
    pub const DNAME: RecordType = RecordType(39);

    /// A digest of a key of the zone below (RFC 4034 5).
    pub const DS: RecordType = RecordType(43);

    /// A signature over an RRset (RFC 4034 3).
    pub const RRSIG: RecordType = RecordType(46);

    /// A gap between two names and the types of the first (RFC 4034 4).
    pub const NSEC: RecordType = RecordType(47);

    /// A key of a zone (RFC 4034 2).
    pub const DNSKEY: RecordType = RecordType(48);

    /// A gap between two hashes of names and the types of the first (RFC 5155 3).
    pub const NSEC3: RecordType = RecordType(50);
}

/// A time to live: for how many seconds a record may be kept (RFC 1035 3.2.1).
#[derive(Clone, Copy, Debug, PartialEq, Eq, PartialOrd, Ord, Hash)]
pub struct Ttl(pub u32);

/// A law of the numbers: each record type has the one that its standard assigns (RFC 1035 3.2.2, RFC 3596
/// 2.1, RFC 2782, RFC 6672 2.1, RFC 4034 2 to 5, RFC 5155 3).
pub fn record_types_have_their_numbers()
    ensures a { RecordType.A.0 ≡ 1 }
    ensures ns { RecordType.NS.0 ≡ 2 }
    ensures cname { RecordType.CNAME.0 ≡ 5 }
    ensures soa { RecordType.SOA.0 ≡ 6 }
    ensures ptr { RecordType.PTR.0 ≡ 12 }
    ensures mx { RecordType.MX.0 ≡ 15 }
    ensures aaaa { RecordType.AAAA.0 ≡ 28 }
    ensures srv { RecordType.SRV.0 ≡ 33 }
    ensures dname { RecordType.DNAME.0 ≡ 39 }
    ensures ds { RecordType.DS.0 ≡ 43 }
    ensures rrsig { RecordType.RRSIG.0 ≡ 46 }
    ensures nsec { RecordType.NSEC.0 ≡ 47 }
    ensures dnskey { RecordType.DNSKEY.0 ≡ 48 }
    ensures nsec3 { RecordType.NSEC3.0 ≡ 50 }
{}
