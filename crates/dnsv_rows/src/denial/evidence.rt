//! Evidence that rows give: captured messages, with trust anchors and a moment.
ghost use Rattle.std.specs.Prelude.{IfOk};
ghost use Rattle.dnsv_chain.specs.Trust.{SecuredIn};
ghost use Rattle.dnsv_denial.specs.gathering.ByZone.{AreDenialRecords};

use crate::chain::trust_in;
use bumpalo::Bump;
use dnsv_canonical::Capture;
use dnsv_chain::Trust;
use dnsv_denial::DenialRecords;
use dnsv_row_text::{Row, RowError};

/// A capture, what is trusted in it, and the records of denials that zones secured.
#[derive(Drop)]
pub struct Evidence<'c> {
    pub capture: &'c Capture<'c>,
    pub trust: Trust<'c>,
    pub denials: DenialRecords<'c>,
}

/// The evidence of a row whose arguments begin with a capture, trust anchors and a moment, of which the capture is read.
/// What a verifier is asked lies in the arena.
pub fn evidence_in<'c>(
    row: &Row,
    bump: &'c Bump,
    capture: &'c Capture<'c>,
) -> Result<Evidence<'c>, RowError>
    ensures { IfOk result (λ evidence. AreDenialRecords (SecuredIn evidence.trust) evidence.capture.now.rrsets
        evidence.denials) }
{
    let trust = trust_in(row, bump, capture, 1)?;
    let denials = DenialRecords::of(row.alloc(), capture, &trust)?;
    Ok(Evidence {
        capture,
        trust,
        denials,
    })
}
