//! Laws of the compact list.
//!
//! Each is a function that does nothing and ensures the law, which its caller learns.
ghost use Rattle.std.specs.Prelude.{◌≡◌, ℕ, List};
ghost use Rattle.dnsv_canonical.specs.Rrsets.{ReceivedRrset};
ghost use Rattle.dnsv_compact.specs.CompactList.{IsCompactList, ListContents};
ghost use Rattle.dnsv_compact.specs.ReadBack.{SayEach};
ghost use Rattle.dnsv_verifier.specs.declared.entry.Entry.{Entry};

/// What a compact list says, read back, are the entries that it was made of: of each the key, the signature, and the
/// octets that are signed, put together again (RFC 4034 3.1.8.1).
pub fn a_compact_list_reads_back()
    ensures { (from to : ℕ) (rrsets : List ReceivedRrset) (entries : List Entry) (contents : ListContents)
        → IsCompactList from to rrsets entries contents → SayEach contents contents.todo entries }
{}

/// Captures with one compact list have the same entries, whatever their ranges of moments.
pub fn a_compact_list_has_one_reading()
    ensures { (from to other another : ℕ) (a b : List ReceivedRrset) (x y : List Entry) (contents : ListContents)
        → IsCompactList from to a x contents → IsCompactList other another b y contents → x ≡ y }
{}
