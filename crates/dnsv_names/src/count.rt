//! Counts of work, as of hashes or of questions to a verifier.
ghost use Rattle.std.specs.Prelude.{◌≡◌, ◌+◌, ◌≤◌, ℕ};
ghost use Rattle.dnsv_names.specs.Count.{count_limit, counted};

use std::marker::Model;

/// How often something was done. It begins at 0 and stops at its greatest value, 2^64 - 1, which is to be
/// read as "at least so often".
#[derive(Clone, Copy, Debug, PartialEq, Eq)]
pub struct Count {
    value: u64,
}

impl Model for Count {
    ghost Value = { ℕ };

    ghost view = { λ count. count.value };

    ghost inverse = { λ value. record { value = value } };
}

impl Count {
    /// A count of nothing.
    pub fn new() -> Count
        ensures { result ≡ 0 }
    {
        Count { value: 0 }
    }

    /// The number that was counted, or 2^64 - 1 where it is greater.
    pub fn value(&self) -> u64
        ensures value { result ≡ self.now }
        ensures at_most { self.now ≤ count_limit }
    {
        self.value
    }

    /// Counts `more`, and stops at the greatest value.
    pub fn add(&mut self, more: u64)
        ensures { self.new ≡ counted self.old more }
    {
        self.value = self.value.saturating_add(more);
    }
}

impl Default for Count {
    ghost is_default = { λ count. count ≡ 0 };

    fn default() -> Count {
        Count::new()
    }
}

/// A law of counts: to count twice is to count the sum, and to count nothing leaves a count as it is.
pub fn counts_add_up()
    ensures twice { (before a b : ℕ) → counted (counted before a) b ≡ counted before (a + b) }
    ensures nothing { (before : ℕ) → before ≤ count_limit → counted before 0 ≡ before }
{}
