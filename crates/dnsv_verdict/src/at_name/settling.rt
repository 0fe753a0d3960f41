//! What the evidence settles about a question, if it settles it.
ghost use Rattle.std.specs.Prelude.{◌≡◌, ◌≢◌, ℕ, MatchOption};
ghost use Rattle.dnsv_zones.specs.zones.TypeNumbers.{cname};
ghost use Rattle.dnsv_chain.specs.Trust.{SecuredIn};
ghost use Rattle.dnsv_verdict.specs.Insecure.{IsOptOutWildcardCut, IsOptOutWildcardSet};
ghost use Rattle.dnsv_verdict.specs.Secure.Search.{IsOptOutSetOf};
ghost use Rattle.dnsv_verdict.specs.Secure.{IsFirstSuch, IsSecureSet};
ghost use Rattle.dnsv_verdict.specs.Settled.{HasAlias, IsSettled, IsSettledAs};

use crate::at_name::search::{Found, Test, earlier, first_such};
use crate::verdict::Verdict;
use dnsv_canonical::{Rrset, is_expanded};
use dnsv_denial::View;
use dnsv_names::{Name, RecordType};
use dnsv_records::Rrsig;

/// What the evidence settles: the first that holds of a secure answer, a secure alias, no such name, no data, and a
/// name that may be unsigned. `None` where it settles nothing.
pub fn settled<'a>(view: &View<'a, '_>, rtype: RecordType) -> Option<Verdict<'a>>
    ensures { MatchOption result (¬ IsSettled (SecuredIn view.now.trust) view.now.rrsets view.now.name rtype.0)
        (IsSettledAs (SecuredIn view.now.trust) view.now.rrsets view.now.name rtype.0) }
{
    if let Some(answer) = secure_set(view, rtype) {
        return Some(Verdict::SecureAnswer {
            rrset: answer.rrset,
            signature: answer.signature,
        });
    }
    if let Some(alias) = secure_alias(view, rtype) {
        return Some(Verdict::SecureAlias {
            rrset: alias.rrset,
            signature: alias.signature,
        });
    }
    if let Some(proof) = view.no_name() {
        return Some(Verdict::SecureNoName(proof));
    }
    if let Some(proof) = view.no_data(rtype) {
        return Some(Verdict::SecureNoData(proof));
    }
    if let Some(cut) = view.unsigned_cut() {
        return Some(Verdict::Insecure(cut));
    }
    if let Some(cut) = opt_out_wildcard_cut(view, rtype) {
        return Some(Verdict::Insecure(cut));
    }
    None
}

/// The first RRset of the name and type that holds for the name, and the first signature by which it does.
fn secure_set<'e>(view: &View<'e, '_>, rtype: RecordType) -> Option<Found<'e>>
    ensures { MatchOption result
        ((k s : ℕ) → ¬ IsSecureSet (SecuredIn view.now.trust) view.now.rrsets view.now.name rtype.0 k s)
        (λ found. (is : IsFirstSuch (IsSecureSet (SecuredIn view.now.trust) view.now.rrsets view.now.name
        rtype.0) found.rrset found.signature) × (is.such.rrsig ≡ found.rrsig.now)) }
{
    let test = HoldsForName { view, rtype };
    first_such(view.capture(), view.trust(), view.name(), rtype, &test)
}

/// The same for CNAME, where another type is asked.
fn secure_alias<'e>(view: &View<'e, '_>, rtype: RecordType) -> Option<Found<'e>>
    ensures { MatchOption result
        (¬ HasAlias (SecuredIn view.now.trust) view.now.rrsets view.now.name rtype.0)
        (λ found. (rtype.0 ≢ cname) × IsFirstSuch (IsSecureSet (SecuredIn view.now.trust) view.now.rrsets
        view.now.name cname) found.rrset found.signature) }
{
    if rtype == RecordType::CNAME {
        return None;
    }
    let Some(found) = secure_set(view, RecordType::CNAME) else {
        return None;
    };
    Some(found)
}

/// The next closer name for the first RRset and signature of the name, and of the type or CNAME, that an unsigned
/// delegation may stand against (RFC 5155 6, 8.8, 9.2).
fn opt_out_wildcard_cut(view: &View<'_, '_>, rtype: RecordType) -> Option<Name>
    ensures { MatchOption result
        ((k s : ℕ) → ¬ IsOptOutWildcardSet (SecuredIn view.now.trust) view.now.rrsets view.now.name rtype.0 k s)
        (IsOptOutWildcardCut (SecuredIn view.now.trust) view.now.rrsets view.now.name rtype.0) }
{
    let Some(found) = opt_out_wildcard(view, rtype) else {
        return None;
    };
    Some(view.name().suffix(found.rrsig.labels as usize + 1))
}

/// The first RRset of the name, and of the type or CNAME, and its first signature, that come from a wildcard and against
/// which an unsigned delegation may stand: the next closer name is covered (RFC 5155 8.8), by a record with the Opt-Out flag
/// (RFC 5155 6, 9.2).
pub fn opt_out_wildcard<'a>(view: &View<'a, '_>, rtype: RecordType) -> Option<Found<'a>>
    ensures { MatchOption result
        ((k s : ℕ) → ¬ IsOptOutWildcardSet (SecuredIn view.now.trust) view.now.rrsets view.now.name rtype.0 k s)
        (λ found. (is : IsFirstSuch (IsOptOutWildcardSet (SecuredIn view.now.trust) view.now.rrsets view.now.name rtype.0)
        found.rrset found.signature) × (is.such.rrsig ≡ found.rrsig.now)) }
{
    let of_type = opt_out_wildcard_set(view, rtype);
    let alias = opt_out_wildcard_set(view, RecordType::CNAME);
    earlier(of_type, alias)
}

/// The first such RRset and signature of the name and of just this type.
fn opt_out_wildcard_set<'e>(view: &View<'e, '_>, rtype: RecordType) -> Option<Found<'e>>
    ensures { MatchOption result
        ((k s : ℕ) → ¬ IsOptOutSetOf (SecuredIn view.now.trust) view.now.rrsets view.now.name rtype.0 k s)
        (λ found. (is : IsFirstSuch (IsOptOutSetOf (SecuredIn view.now.trust) view.now.rrsets view.now.name
        rtype.0) found.rrset found.signature) × (is.such.rrsig ≡ found.rrsig.now)) }
{
    let test = IsOptOutWildcard { view, rtype };
    first_such(view.capture(), view.trust(), view.name(), rtype, &test)
}

/// That an RRset of the type holds for the view's name by the signature: no wildcard is behind it, or there is a proof
/// that no closer name than the wildcard exists (RFC 4035 5.3.4, RFC 5155 8.8).
#[derive(Drop)]
struct HoldsForName<'v, 'c, 't> {
    view: &'v View<'c, 't>,
    rtype: RecordType,
}

impl Test for HoldsForName<'_, '_, '_> {
    ghost use Rattle.std.specs.Prelude.{◌≡◌};
    ghost use Rattle.dnsv_chain.specs.Trust.{SecuredIn};
    ghost use Rattle.dnsv_verdict.specs.Secure.{HoldsForName};

    ghost passes = { λ test rrset rrsig. (rrset.rtype ≡ test.rtype.0)
        × HoldsForName (SecuredIn test.view.now.trust) test.view.now.rrsets test.view.now.name rrset rrsig };

    fn is_passed_by(&self, rrset: &Rrset<'_>, rrsig: &Rrsig<'_>) -> bool {
        if rrset.rtype() != self.rtype {
            return false;
        }
        if !is_expanded(rrset.owner(), rrsig) {
            return true;
        }
        self.view
            .no_closer(&rrsig.signer.to_name(), rrsig.labels as usize)
            .is_some()
    }
}

/// That a wildcard is behind the signature of an RRset of the type, and an unsigned delegation may be closer to the
/// view's name (RFC 5155 6, 8.8, 9.2).
#[derive(Drop)]
struct IsOptOutWildcard<'v, 'c, 't> {
    view: &'v View<'c, 't>,
    rtype: RecordType,
}

impl Test for IsOptOutWildcard<'_, '_, '_> {
    ghost use Rattle.std.specs.Prelude.{◌≡◌};
    ghost use Rattle.dnsv_chain.specs.Trust.{SecuredIn};
    ghost use Rattle.dnsv_verdict.specs.Insecure.{IsOptOutWildcard};

    ghost passes = { λ test rrset rrsig. (rrset.rtype ≡ test.rtype.0)
        × IsOptOutWildcard (SecuredIn test.view.now.trust) test.view.now.rrsets test.view.now.name rrset rrsig };

    fn is_passed_by(&self, rrset: &Rrset<'_>, rrsig: &Rrsig<'_>) -> bool {
        if rrset.rtype() != self.rtype || !is_expanded(rrset.owner(), rrsig) {
            return false;
        }
        self.view
            .loose_closer(&rrsig.signer.to_name(), rrsig.labels as usize)
            .is_some()
    }
}
