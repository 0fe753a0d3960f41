//! From which name on the question's name may be unsigned.
ghost use Rattle.std.specs.Prelude.{List, MatchOption};
ghost use Rattle.dnsv_canonical.specs.Rrsets.{ReceivedRrset};
ghost use Rattle.dnsv_chain.specs.Trust.{KeptTrust, SecuredIn};
ghost use Rattle.dnsv_denial.specs.unsigned_cuts.Cuts.{HasUnsignedCut, IsUnsignedCut};
ghost use Rattle.dnsv_denial.specs.unsigned_cuts.Findings.{AreFindings};

use dnsv_names::Name;
use dnsv_proof_forms::next_closer;

/// The name from which on the name may be unsigned, by what is found: how many labels the highest delegation without DS
/// has, the highest whose DS records can't be used, and the closest encloser with most labels where Opt-Out may leave out a
/// delegation (RFC 4035 5.2, RFC 5155 8.6, 8.9, 9.2). `None` where nothing is found.
pub fn first_cut(
    name: &Name,
    no_ds: Option<usize>,
    no_usable_ds: Option<usize>,
    opt_out: Option<usize>,
) -> Option<Name>
    requires { (trust : KeptTrust) × (rrsets : List ReceivedRrset)
        × AreFindings (SecuredIn trust) rrsets name.now no_ds no_usable_ds opt_out }
    ensures { (trust : KeptTrust) (rrsets : List ReceivedRrset)
        → AreFindings (SecuredIn trust) rrsets name.now no_ds no_usable_ds opt_out
        → MatchOption result (¬ HasUnsignedCut (SecuredIn trust) rrsets name.now)
        (IsUnsignedCut (SecuredIn trust) rrsets name.now) }
{
    if let Some(labels) = no_ds {
        return Some(name.suffix(labels));
    }
    if let Some(labels) = no_usable_ds {
        return Some(name.suffix(labels));
    }
    let Some(labels) = opt_out else {
        return None;
    };
    Some(next_closer(name, labels))
}
