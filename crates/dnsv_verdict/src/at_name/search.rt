//! The first RRset of a name, and its first signature, that pass a test.
ghost use Rattle.std.specs.Prelude.{◌≡◌, ◌↔◌, ◌<◌, ◌≤◌, ℕ, Contains, IsTrue, MatchOption, length};
ghost use Rattle.dnsv_records.specs.declared.rrsig.Rrsig.{Rrsig};
ghost use Rattle.dnsv_canonical.specs.Rrsets.{IsNumbered, ReceivedRrset};
ghost use Rattle.dnsv_chain.specs.Trust.{SecuredIn};
ghost use Rattle.dnsv_verdict.specs.Secure.Search.{IsEarlier, IsFirstFound, IsFound};
ghost use Rattle.dnsv_verdict.specs.Secure.{IsFirstSuch, IsSecuredAt};

use dnsv_canonical::{Capture, Rrset};
use dnsv_chain::Trust;
use dnsv_names::{Name, RecordType};
use dnsv_records::Rrsig;

/// What is asked of an RRset with one of its signatures.
pub trait Test {
    /// The two are such.
    ghost passes: { Self → ReceivedRrset → Rrsig → Type 0 };

    /// Whether they are.
    fn is_passed_by(&self, rrset: &Rrset<'_>, rrsig: &Rrsig<'_>) -> bool
        ensures { IsTrue result ↔ passes self.now rrset.now rrsig.now };
}

/// A signature, with its number and that of its RRset.
#[derive(Debug, Drop)]
pub struct Found<'a> {
    /// The number of the RRset.
    pub rrset: usize,
    /// The number of the signature.
    pub signature: usize,
    /// The signature.
    pub rrsig: &'a Rrsig<'a>,
}

/// The first RRset of the name and type that has a trusted signature with which it passes the test, and the first such
/// signature; `None` where there is none. RRsets of other types pass none.
pub fn first_such<'a, T: Test>(
    capture: &'a Capture<'a>,
    trust: &Trust<'_>,
    name: &Name,
    rtype: RecordType,
    test: &T,
) -> Option<Found<'a>>
    requires { (rrset : ReceivedRrset) (rrsig : Rrsig) → T.passes test.now rrset rrsig → rrset.rtype ≡ rtype.0 }
    ensures { MatchOption result
        ((k s : ℕ) → ¬ IsSecuredAt (SecuredIn trust.now) capture.now.rrsets name.now (T.passes test.now) k s)
        (λ found. (is : IsFirstSuch (IsSecuredAt (SecuredIn trust.now) capture.now.rrsets name.now (T.passes test.now))
        found.rrset found.signature) × (is.such.rrsig ≡ found.rrsig.now)) }
{
    let rrsets = capture.rrsets();
    let at_name = capture.at(name, rtype);
    for number in at_name {
        let rrset = rrset_at(rrsets, *number);
        if let Some((signature, rrsig)) = first_signature(rrset, trust.signed(*number), test) {
            return Some(Found {
                rrset: *number,
                signature,
                rrsig,
            });
        }
    }
    None
}

/// The RRset with the number.
fn rrset_at<'a, 'b>(rrsets: &'a [Rrset<'b>], number: usize) -> &'a Rrset<'b>
    requires some { 0 < number }
    requires within { number ≤ length rrsets.now }
    ensures { IsNumbered rrsets.now number result.now }
{
    &rrsets[number - 1]
}

/// What was found in the RRset that comes first; in one RRset, the one.
pub fn earlier<'a>(one: Option<Found<'a>>, other: Option<Found<'a>>) -> Option<Found<'a>>
    ensures { IsEarlier one.entry other.entry result }
{
    let Some(found) = one else {
        return other;
    };
    let Some(another) = other else {
        return Some(found);
    };
    if another.rrset < found.rrset {
        return Some(another);
    }
    Some(found)
}

/// The first of the RRset's signatures with one of these numbers with which it passes the test, behind its number.
fn first_signature<'a, T: Test>(
    rrset: &'a Rrset<'a>,
    numbers: &[usize],
    test: &T,
) -> Option<(usize, &'a Rrsig<'a>)>
    ensures { MatchOption result ((s : ℕ) → ¬ IsFound (T.passes test.now) rrset.now numbers.now s)
        (λ found. IsFirstFound (T.passes test.now) rrset.now numbers.now found.0 found.1.now) }
{
    let signatures = rrset.signatures();
    for (place, rrsig) in signatures.iter().enumerate() {
        if is_among(numbers, place + 1) && test.is_passed_by(rrset, rrsig) {
            return Some((place + 1, rrsig));
        }
    }
    None
}

/// Whether the number is one of these.
fn is_among(numbers: &[usize], number: usize) -> bool
    ensures { IsTrue result ↔ Contains numbers.now number }
{
    numbers.contains(&number)
}
