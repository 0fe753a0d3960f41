//! Numbers of what stands in the evidence.
ghost use Rattle.std.specs.Prelude.{MatchOption};
ghost use Rattle.dnsv_canonical.specs.Rrsets.{IsNumbered};

/// The element with the number, from 1 on; `None` where none has it.
pub fn numbered<T>(elements: &[T], number: usize) -> Option<&T>
    ensures { MatchOption result ((each : T) → ¬ IsNumbered elements.now number each)
        (λ found. IsNumbered elements.now number found.now) }
{
    if number == 0 {
        return None;
    }
    elements.get(number - 1)
}

/// A record by its number: the RRset that it is in, and its place among that RRset's records in canonical order (RFC
/// 4034 6.3), each counted from 1. Numbers are ordered by RRset, and then by place.
#[derive(Clone, Copy, Debug, Default, PartialEq, Eq, PartialOrd, Ord)]
pub struct RecordNumber {
    /// The number of the RRset.
    pub rrset: usize,
    /// The place of the record in it.
    pub place: usize,
}

/// A signature of an RRset of the evidence, by the numbers of both, each counted from 1.
#[derive(Clone, Copy, Debug, PartialEq, Eq)]
pub struct SignatureNumber {
    /// The number of the RRset in the evidence.
    pub rrset: usize,
    /// The number of the signature among those of the RRset.
    pub signature: usize,
}
