//! Border lines: which signatures end or begin where one stretch is over and the next begins.
ghost use Rattle.std.specs.Prelude.{◌≡◌, ◌++◌, ◌-◌, ◌<◌, IfOk, OnOk, map};
ghost use Rattle.dnsv_moments.specs.texts.Borders.{begins_at, borders_of, ends_before, is_valid_at, not_valid_at};

use crate::dated::DatedSignature;
use dnsv_records::time_valid;
use dnsv_timeline::Times;
use std::alloc::{AllocError, Global};

/// What a signature does at a border.
#[derive(Clone, Copy, Debug, PartialEq, Eq)]
pub enum Edge {
    /// It was valid, and is no more.
    Ends,
    /// It wasn't valid, and is now.
    Begins,
}

/// A signature that ends or begins at a border.
#[derive(Clone, Copy, Debug)]
pub struct Border {
    pub edge: Edge,
    /// The last moment before the border of one that ends, the first behind it of one that begins, in seconds since
    /// 1970.
    pub moment: u64,
    pub signature: DatedSignature,
}

/// The border lines in front of a stretch that begins at the moment: those of the derivation before that end there, and
/// then those of its own derivation that begin there, each in the order of its derivation.
pub fn borders_between(
    alloc: Global,
    before: &[DatedSignature],
    by: &[DatedSignature],
    from: u64,
) -> Result<Vec<Border>, AllocError>
    ensures { IfOk result (λ borders. borders.items ≡ borders_of before.now by.now from) }
{
    let mut all = Vec::new(alloc);
    push_ends(&mut all, before, from)?;
    push_begins(&mut all, by, from)?;
    Ok(all)
}

/// Adds those that aren't valid at the moment any more.
fn push_ends(all: &mut Vec<Border>, before: &[DatedSignature], from: u64) -> Result<(), AllocError>
    ensures { OnOk result (all.new.items ≡ all.old.items ++ map (ends_before from) (not_valid_at from before.now)) }
{
    for signature in before {
        if !is_valid(signature.times, from) {
            all.push(Border {
                edge: Edge::Ends,
                moment: from.saturating_sub(1),
                signature: *signature,
            })?;
        }
    }
    Ok(())
}

/// Adds those that weren't valid one second before.
fn push_begins(all: &mut Vec<Border>, by: &[DatedSignature], from: u64) -> Result<(), AllocError>
    ensures { OnOk result (all.new.items ≡ all.old.items ++ map (begins_at from) (not_valid_at (from - 1) by.now)) }
{
    for signature in by {
        if !is_valid(signature.times, from.saturating_sub(1)) {
            all.push(Border {
                edge: Edge::Begins,
                moment: from,
                signature: *signature,
            })?;
        }
    }
    Ok(())
}

/// Whether a signature with the times is valid at the moment.
fn is_valid(times: Times, moment: u64) -> bool
    ensures { result ≡ is_valid_at times moment }
{
    time_valid(times.inception, times.expiration, moment)
}
