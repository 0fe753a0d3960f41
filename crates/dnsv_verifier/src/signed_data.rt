//! What a signature signs, where it stands.
ghost use Rattle.std.specs.Prelude.{◌≡◌, ◌↔◌, ◌++◌, ◌≤◌, [], IsTrue, length, nat_eq, refl};
ghost use Rattle.std.specs.Cmp.{partial_equiv_from_equiv, partial_order_from_agreeing_total};
ghost use Rattle.std.specs.Cmp.Lexicographic.{lists_equiv, pointwise, texts_ties};
ghost use Rattle.std.specs.Ordering.{as_partial_cmp};
ghost use Rattle.std.proofs.lemmas.Cmp.{nat_eq_equiv, nat_list_cmp_total};
ghost use Rattle.dnsv_names.specs.Octets.{octets_cmp};
ghost use Rattle.dnsv_verifier.specs.SignedData.{IsFront};

use dnsv_names::compare_octets;
use std::cmp::Ordering;
use std::marker::Model;

/// The octets that a signature signs (RFC 4034 3.1.8.1) in two pieces, one behind the other: what the signature gives, its
/// RDATA without the signature, and what the RRset gives, its records. So the records stand once for all signatures of an
/// RRset that sign the same of it. Signed data is ordered as its octets, as unsigned numbers, wherever they part.
#[derive(Debug, Drop)]
pub struct SignedData<'b> {
    front: &'b [u8],
    records: &'b [u8],
}

impl<'b> Model for SignedData<'b> {
    ghost use Rattle.std.specs.Prelude.{◌≡◌, ◌⊎◌, ◌++◌, ◌≤◌, ℕ, List, [], length};

    ghost Value = { List ℕ };

    ghost view = { λ signed. signed.front.now ++ signed.records.now };

    ghost invariant = { λ signed. (16 ≤ length signed.front.now) ⊎ (signed.records.now ≡ []) };
}

impl<'b> SignedData<'b> {
    /// These octets, in one piece.
    pub fn of(octets: &'b [u8]) -> SignedData<'b>
        ensures { result ≡ octets.now }
    {
        SignedData {
            front: octets,
            records: &[],
        }
    }

    /// Octets and those behind them. The first have the times of the signature, so there are 16 of them and more.
    pub(crate) fn in_two(front: &'b [u8], records: &'b [u8]) -> SignedData<'b>
        requires { 16 ≤ length front.now }
        ensures { result ≡ front.now ++ records.now }
    {
        SignedData { front, records }
    }

    /// The same octets, which stand where they stood.
    pub fn copied(&self) -> SignedData<'b>
        ensures { result ≡ self.now }
    {
        SignedData {
            front: self.front,
            records: self.records,
        }
    }

    /// Whether there are no octets.
    pub fn is_empty(&self) -> bool
        ensures { IsTrue result ↔ (self.now ≡ []) }
    {
        // Where the first piece has none, there is no second.
        self.front.is_empty()
    }

    /// The two pieces, of which the second may have no octets.
    pub fn pieces(&self) -> (&'b [u8], &'b [u8])
        ensures { result.0.now ++ result.1.now ≡ self.now }
    {
        (self.front, self.records)
    }

    /// The first piece, which is all of it where it has less than 16 octets.
    pub(crate) fn front(&self) -> &'b [u8]
        ensures { IsFront result.now self.now }
    {
        self.front
    }

    /// How the octets stand to the others.
    pub(crate) fn stand_to(&self, other: &SignedData<'_>) -> Ordering
        ensures { result ≡ octets_cmp self.now other.now }
    {
        if self.front.len() == other.front.len() {
            let fronts = compare_octets(self.front, other.front);
            return fronts.then_with(|| compare_octets(self.records, other.records));
        }
        if self.front.len() < other.front.len() {
            let (first, rest) = other.front.split_at(self.front.len());
            return compare_octets(self.front, first).then_with(|| against(
                self.records,
                rest,
                other.records,
            ));
        }
        let (first, rest) = self.front.split_at(other.front.len());
        compare_octets(first, other.front).then_with(|| against(
            other.records,
            rest,
            self.records,
        ).reverse())
    }
}

/// How octets stand to others that are in two pieces.
fn against(octets: &[u8], front: &[u8], records: &[u8]) -> Ordering
    ensures { result ≡ octets_cmp octets.now (front.now ++ records.now) }
{
    if octets.len() < front.len() {
        return compare_octets(octets, front);
    }
    let (first, rest) = octets.split_at(front.len());
    compare_octets(first, front).then_with(|| compare_octets(rest, records))
}

impl Ord for SignedData<'_> {
    ghost cmp = { octets_cmp };

    ghost total = { nat_list_cmp_total };

    ghost matches_partial_cmp = { λ a b. refl };

    ghost matches_eq = { texts_ties };

    fn cmp(&self, other: &SignedData<'_>) -> Ordering {
        self.stand_to(other)
    }
}

impl PartialOrd for SignedData<'_> {
    ghost partial_cmp = { as_partial_cmp octets_cmp };

    ghost laws = { partial_order_from_agreeing_total octets_cmp nat_list_cmp_total (λ a b. refl) texts_ties };

    fn partial_cmp(&self, other: &SignedData<'_>) -> Option<Ordering> {
        Some(self.cmp(other))
    }
}

impl PartialEq for SignedData<'_> {
    ghost eq = { pointwise nat_eq };

    ghost laws = { partial_equiv_from_equiv (lists_equiv nat_eq_equiv) };

    fn eq(&self, other: &SignedData<'_>) -> bool
        ensures value { result ≡ pointwise nat_eq self.now other.now }
        ensures same { IsTrue result ↔ (self.now ≡ other.now) }
    {
        self.stand_to(other).is_eq()
    }
}

impl Eq for SignedData<'_> {
    ghost laws = { lists_equiv nat_eq_equiv };
}
