//! What it costs to mend some faults.
ghost use Rattle.std.specs.Prelude.{◌≡◌};
ghost use Rattle.dnsv_mending.specs.Price.{add, is_cheaper, none, one};

/// A class of faults. A fault of a class is dearer than any number of faults of those behind it.
#[derive(Clone, Copy, Debug)]
pub enum Class {
    /// Something isn't there at all: a trust anchor, a DNSKEY RRset, a DS RRset.
    Missing,
    /// Something was stripped, or is of no use.
    Stripped,
    /// A key doesn't sign.
    NotSigning,
    /// A signature can't be one of its RRset.
    Unfit,
    /// A part lacks, as a key that a signature names.
    Lacking,
    /// A signature isn't valid yet, or no more.
    Time,
    /// Keys don't fit what names them.
    NotFitting,
    /// A verifier takes a signature for invalid.
    Bad,
    /// A verifier doesn't know a signature.
    Unanswered,
}

/// How many faults of each class there are. A count stops at its greatest value. Prices are ordered by their first
/// count, then by the next, and so on.
#[derive(Clone, Copy, Debug, PartialEq, Eq, PartialOrd, Ord)]
pub struct Price {
    pub missing: u64,
    pub stripped: u64,
    pub not_signing: u64,
    pub unfit: u64,
    pub lacking: u64,
    pub time: u64,
    pub not_fitting: u64,
    pub bad: u64,
    pub unanswered: u64,
}

impl Price {
    /// That of no faults.
    pub fn none() -> Price
        ensures { result ≡ none }
    {
        Price {
            missing: 0,
            stripped: 0,
            not_signing: 0,
            unfit: 0,
            lacking: 0,
            time: 0,
            not_fitting: 0,
            bad: 0,
            unanswered: 0,
        }
    }

    /// That of one fault of the class.
    pub fn one(class: Class) -> Price
        ensures { result ≡ one class }
    {
        let none = Price::none();
        match class {
            Class::Missing => Price { missing: 1, ..none },
            Class::Stripped => Price {
                stripped: 1,
                ..none
            },
            Class::NotSigning => Price {
                not_signing: 1,
                ..none
            },
            Class::Unfit => Price { unfit: 1, ..none },
            Class::Lacking => Price { lacking: 1, ..none },
            Class::Time => Price { time: 1, ..none },
            Class::NotFitting => Price {
                not_fitting: 1,
                ..none
            },
            Class::Bad => Price { bad: 1, ..none },
            Class::Unanswered => Price {
                unanswered: 1,
                ..none
            },
        }
    }

    /// That of the faults of both.
    pub fn and(self, other: Price) -> Price
        ensures { result ≡ add self other }
    {
        Price {
            missing: self.missing.saturating_add(other.missing),
            stripped: self.stripped.saturating_add(other.stripped),
            not_signing: self.not_signing.saturating_add(other.not_signing),
            unfit: self.unfit.saturating_add(other.unfit),
            lacking: self.lacking.saturating_add(other.lacking),
            time: self.time.saturating_add(other.time),
            not_fitting: self.not_fitting.saturating_add(other.not_fitting),
            bad: self.bad.saturating_add(other.bad),
            unanswered: self.unanswered.saturating_add(other.unanswered),
        }
    }

    /// Whether it is below the other.
    pub fn is_cheaper(self, other: Price) -> bool
        ensures { result ≡ is_cheaper self other }
    {
        self < other
    }
}
