//! The times of the signatures of a capture.
ghost use Rattle.std.specs.Prelude.{IfOk, OnOk};
ghost use Rattle.dnsv_moments.specs.Dates.{AddsTimes, AreTimesOf};

use dnsv_canonical::{Capture, Rrset};
use dnsv_timeline::Times;
use std::alloc::{AllocError, Global};

/// The times of each signature of the capture: what is said of it changes where these do.
pub fn times_of_all(alloc: Global, capture: &Capture<'_>) -> Result<Vec<Times>, AllocError>
    ensures { IfOk result (λ times. AreTimesOf capture.now.rrsets times.items) }
{
    let mut all = Vec::new(alloc);
    for rrset in capture.rrsets() {
        push_times(&mut all, rrset)?;
    }
    Ok(all)
}

/// Adds those of the RRset's signatures.
fn push_times(all: &mut Vec<Times>, rrset: &Rrset<'_>) -> Result<(), AllocError>
    ensures { OnOk result (AddsTimes rrset.now all.old.items all.new.items) }
{
    for rrsig in rrset.signatures() {
        all.push(Times {
            inception: rrsig.inception,
            expiration: rrsig.expiration,
        })?;
    }
    Ok(())
}
