//! RRsets whose records stand together and their signatures behind them, as nearly all do.
ghost use Rattle.std.specs.Prelude.{◌≡◌, ◌≤◌, ◌<◌, ◌^◌, ◌++◌, ◌∷◌, [], IfOk, IfSome, IsTrue, OnOk, length, map, take, true};
ghost use Rattle.dnsv_canonical.specs.Rrsets.{is_grouped, rrsets_in, same_rrset};
ghost use Rattle.dnsv_canonical.specs.Runs.{IsRun};

use crate::by_rrset::each_once;
use crate::placed_record::PlacedRecord;
use crate::received::{Received, placed_owner};
use crate::section::{covers, is_grouped, is_rrsig};
use bumpalo::Bump;
use dnsv_message::{NameRefByWire, Section};
use dnsv_names::RecordType;
use std::alloc::{AllocError, Global};
use std::collections::BTreeSet;

/// What stands together of an RRset and its signatures.
#[derive(Drop)]
struct Run<'b> {
    /// The RDATA of the RRset's records, the first one's too.
    rdata: Vec<&'b [u8]>,
    /// The RDATA of the signatures that cover it.
    signatures: Vec<&'b [u8]>,
    /// How many records stand behind the first.
    count: usize,
}

/// The RRsets of a section in which each RRset's records and the signatures that cover it stand together, a record of
/// it first; `None` where some stand elsewhere. One search an RRset tells that.
pub fn rrsets_together<'b>(
    alloc: Global,
    bump: &'b Bump,
    message: usize,
    section: Section,
    records: &[PlacedRecord<'b>],
) -> Result<Option<Vec<Received<'b>>>, AllocError>
    ensures { IfOk result (λ found. IfSome found (λ rrsets. rrsets.items ≡ rrsets_in message section records.now)) }
{
    let mut rrsets = Vec::new(alloc);
    let mut seen = BTreeSet::new(alloc);
    let mut place = 0;
    while place < records.len() {
        let first = &records[place];
        place += 1;
        if !is_grouped(first) {
            // A signature that stands behind none of its RRset's records.
            if is_rrsig(first) {
                return Ok(None);
            }
            continue;
        }
        is_16_bits(first.rtype);
        if !seen.insert((first.rtype, NameRefByWire(&first.name)))? {
            return Ok(None);
        }
        let run = run_from(alloc, first, &records[place..])?;
        place += run.count;
        let owner = placed_owner(bump, rrsets.as_slice(), &first.name)?;
        rrsets.push(Received {
            message,
            section,
            owner,
            rtype: first.rtype,
            rdata: run.rdata,
            signatures: each_once(alloc, run.signatures)?,
        })?;
    }
    Ok(Some(rrsets))
}

/// The run that the first record of an RRset begins, by the records behind it.
fn run_from<'b>(
    alloc: Global,
    first: &PlacedRecord<'b>,
    behind: &[PlacedRecord<'b>],
) -> Result<Run<'b>, AllocError>
    requires grouped { is_grouped first.now ≡ true }
    requires fits { first.now.rtype.0 < 2 ^ 16 }
    ensures run { IfOk result (λ run. IsRun first.now (first.now ∷ take run.count behind.now)
        (map (λ r. r.now) run.rdata.items) (map (λ r. r.now) run.signatures.items)) }
    ensures within { IfOk result (λ run. run.count ≤ length behind.now) }
{
    let rtype = first.rtype;
    let mut rdata = Vec::with_capacity(alloc, 1)?;
    rdata.push(first.rdata())?;
    let mut signatures = Vec::new(alloc);
    let mut count = 0;
    while count < behind.len() {
        let record = &behind[count];
        if belongs(first, record) {
            rdata.push(record.rdata())?;
        } else if covers(record, rtype, &first.name) {
            push_one(&mut signatures, record.rdata())?;
        } else {
            break;
        }
        count += 1;
    }
    Ok(Run {
        rdata,
        signatures,
        count,
    })
}

/// Adds RDATA behind the others. The first gets room for itself alone, since mostly it is the only one.
fn push_one<'b>(others: &mut Vec<&'b [u8]>, rdata: &'b [u8]) -> Result<(), AllocError>
    ensures { OnOk result (others.new.items ≡ others.old.items ++ rdata.entry ∷ []) }
{
    if others.is_empty() {
        others.reserve_exact(1)?;
    }
    others.push(rdata)?;
    Ok(())
}

/// Whether the candidate belongs to the RRset of the first.
fn belongs(first: &PlacedRecord<'_>, candidate: &PlacedRecord<'_>) -> bool
    requires { is_grouped first.now ≡ true }
    ensures grouped { IsTrue result → is_grouped candidate.now ≡ true }
    ensures same { IsTrue result → same_rrset first.now candidate.now ≡ true }
{
    candidate.rtype == first.rtype && candidate.class == first.class && candidate.name == first.name
}

/// What is true of every type.
fn is_16_bits(rtype: RecordType)
    ensures { rtype.0 < 2 ^ 16 }
{}
