//! What holds for the links of a way.
ghost use Rattle.std.specs.Prelude.{◌≡◌, ◌<◌, ℕ, [], OnOk, get_or, length, map};
ghost use Rattle.dnsv_chain.specs.Basis.{HasTrust};
ghost use Rattle.dnsv_verdict.specs.Report.{hashed_in};
ghost use Rattle.dnsv_verdict.specs.Secure.{IsSecureSet};
ghost use Rattle.dnsv_derivations.specs.Explained.{setting_in};
ghost use Rattle.dnsv_derivations.specs.Saying.{Adds, AreEach};
ghost use Rattle.dnsv_derivations.specs.derivations.OwnDerivations.{SecuredIn};
ghost use Rattle.dnsv_holding.specs.Explained.{explained_by};
ghost use Rattle.dnsv_holding.specs.Holding.{IsLinkTold};
ghost use Rattle.dnsv_holding.specs.OnWay.{AreOnWay};

use crate::at::At;
use crate::told::add_set;
use dnsv_canonical::SignatureNumber;
use dnsv_derivations::Evidence;
use dnsv_lines::Line;
use dnsv_proof_forms::Hashes;
use dnsv_verdict::{Case, Link};
use std::alloc::{AllocError, Global};
use std::rc::Rc;

/// Adds what holds for each link, in order, by the hashes for its name.
pub fn add_links<'a>(
    alloc: Global,
    evidence: &Evidence<'_>,
    case: &Case<'a>,
    links: &[Link],
    hashes: &[Rc<Hashes<'a>>],
    lines: &mut Vec<Line>,
) -> Result<(), AllocError>
    requires trust { HasTrust case.now }
    requires evidence { evidence.now ≡ explained_by case.now [] }
    requires way { AreOnWay case.now links.now (map (λ each. each.value) hashes.now) }
    ensures { OnOk result (Adds (AreEach (IsLinkTold (setting_in evidence.now)) links.now) lines.old.items
        lines.new.items) }
{
    for (place, link) in links.iter().enumerate() {
        let hashed = hashes_at(hashes, place);
        add_link(alloc, evidence, case, link, hashed, lines)?;
    }
    Ok(())
}

/// Adds what holds for a link, by the hashes for its name.
pub fn add_link<'a>(
    alloc: Global,
    evidence: &Evidence<'_>,
    case: &Case<'a>,
    link: &Link,
    hashes: &Hashes<'a>,
    lines: &mut Vec<Line>,
) -> Result<(), AllocError>
    requires trust { HasTrust case.now }
    requires evidence { evidence.now ≡ explained_by case.now [] }
    requires hashes { hashes.now ≡ hashed_in case.now.rrsets link.now.name }
    requires secure { (t : ℕ) × IsSecureSet (SecuredIn (setting_in evidence.now)) evidence.now.rrsets link.now.name t
        link.now.rrset link.now.signature }
    ensures { OnOk result (Adds (IsLinkTold (setting_in evidence.now) link.now) lines.old.items lines.new.items) }
{
    let number = SignatureNumber {
        rrset: link.rrset,
        signature: link.signature,
    };
    let at = At {
        case,
        hashes,
        name: &link.name,
    };
    Ok(add_set(alloc, evidence, &at, lines, number)?)
}

/// The hashes at the place.
fn hashes_at<'s, 'a>(hashes: &'s [Rc<Hashes<'a>>], place: usize) -> &'s Hashes<'a>
    requires { place < length (map (λ each. each.value) hashes.now) }
    ensures { result.now ≡ get_or (map (λ each. each.value) hashes.now) place result.now }
{
    hashes[place].as_ref()
}
