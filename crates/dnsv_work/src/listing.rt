//! The work of `list`: what each signature signs, or what a verifier still has to check.
ghost use Rattle.std.specs.Prelude.{◌≡◌, Contains, Err, IfErr, IfOk, string_bytes};
ghost use Rattle.dnsv_answers.specs.declared.heading.Moments.TheVariants.{At, Between};
ghost use Rattle.dnsv_verifier.specs.Table.{TableContents, unknown_entries};
ghost use Rattle.dnsv_verifier.specs.Within.{IsAskedWithin, IsTableWithin};
ghost use Rattle.dnsv_verifier.specs.declared.entry.Entry.{Entry};
ghost use Rattle.dnsv_files.specs.Files.Capture.{IsFaultOfCapture, NewEvidence};
ghost use Rattle.dnsv_files.specs.Files.Faults.{OfFailedRead, TellsFaults};
ghost use Rattle.dnsv_files.specs.Files.{AreTold, Files};
ghost use Rattle.dnsv_files.specs.declared.opening.Opening.TheVariants.{Plain};
ghost use Rattle.dnsv_work.specs.Reached.{IsCaptureReached, IsReachedByList, IsReachedByTodo};
ghost use Rattle.dnsv_work.specs.Faults.{IsFirstFaultOfList, IsFirstFaultOfRange, IsFirstFaultOfTodo, IsFaultOfRange};
ghost use Rattle.dnsv_work.specs.Listing.{IsListed, IsListing, IsTodo, ListsEntries};
ghost use Rattle.dnsv_files.specs.Bounds.{begin_of, end_of};
ghost use Rattle.dnsv_work.specs.Span.{moments_of};
ghost use Rattle.dnsv_timeline.specs.Range.{IsRange};

use crate::span::{Span, range_between};
use bumpalo::Bump;
use dnsv_canonical::{Capture, Rrset};
use dnsv_commands::{Form, Listing};
use dnsv_compact::CompactList;
use dnsv_evidence_texts::{compact_text, listing_text, todo_text};
use dnsv_files::{Fault, InputFile, Inputs, Opening, evidence_in, text_in};
use dnsv_names::Count;
use dnsv_questions::{Format, Moment};
use dnsv_statements::Statements;
use dnsv_verifier::{Entries, Verifier, ask_within};
use std::alloc::{AllocError, Global};
use std::io::Read;

/// What each signature signs, or what a verifier still has to check at the moment.
pub fn list<R: Read>(
    alloc: Global,
    listing: Listing,
    format: Format,
    moment: Moment,
    inputs: &mut Inputs<R>,
    bump: &Bump,
) -> Result<String, Fault>
    ensures text { (files : Files) → AreTold R.remaining inputs.old files
        → IfOk result (λ text. IsListed listing format moment files (string_bytes text)) }
    ensures faults { TellsFaults (IsFirstFaultOfList listing) R.remaining inputs.old inputs.new result }
    ensures reached { (files : Files) → AreTold R.remaining inputs.old files
        → IfErr result (OfFailedRead (IsReachedByList listing files)) }
    ensures unwritten { IfErr result (λ fault. fault ≡ Fault.WriteFailed → ⊥) }
{
    match listing {
        Listing::All => list_all(alloc, format, moment, inputs, bump),
        Listing::Todo(form) => list_todo(alloc, form, format, &Span::At(moment), inputs, bump),
    }
}

/// What a verifier still has to check at some moment of the range. The fault is that this is none, and else that of the
/// files.
pub fn list_range<R: Read>(
    alloc: Global,
    form: Form,
    format: Format,
    from: Moment,
    to: Moment,
    inputs: &mut Inputs<R>,
    bump: &Bump,
) -> Result<String, Fault>
    ensures text { (files : Files) → AreTold R.remaining inputs.old files → IfOk result (λ text.
        IsRange from to × IsTodo form format (Between from to) files (string_bytes text)) }
    ensures faults { TellsFaults (λ files. IsFirstFaultOfRange from to (IsFirstFaultOfTodo files)) R.remaining inputs.old
        inputs.new result }
    ensures range { (fault : Fault) → IsFaultOfRange from to fault → result ≡ Err fault }
    ensures reached { (files : Files) → AreTold R.remaining inputs.old files
        → IfErr result (OfFailedRead (λ file. IsRange from to × IsReachedByTodo files file)) }
    ensures unwritten { IfErr result (λ fault. fault ≡ Fault.WriteFailed → ⊥) }
{
    let range = range_between(from, to)?;
    list_todo(alloc, form, format, &Span::Within(range), inputs, bump)
}

/// What each signature signs.
fn list_all<R: Read>(
    alloc: Global,
    format: Format,
    moment: Moment,
    inputs: &mut Inputs<R>,
    bump: &Bump,
) -> Result<String, Fault>
    ensures text { (files : Files) → AreTold R.remaining inputs.old files
        → IfOk result (λ text. IsListing format moment files.capture (string_bytes text)) }
    ensures faults { TellsFaults (λ files. IsFaultOfCapture NewEvidence Plain files.capture) R.remaining inputs.old
        inputs.new result }
    ensures reached { (files : Files) → AreTold R.remaining inputs.old files
        → IfErr result (OfFailedRead IsCaptureReached) }
    ensures unwritten { IfErr result (λ fault. fault ≡ Fault.WriteFailed → ⊥) }
{
    let held = evidence_in(alloc, &Opening::Plain, &mut inputs.capture, bump)?;
    Ok(listing_text(alloc, format, moment.seconds(), &held)?)
}

/// What a verifier still has to check.
fn list_todo<R: Read>(
    alloc: Global,
    form: Form,
    format: Format,
    span: &Span,
    inputs: &mut Inputs<R>,
    bump: &Bump,
) -> Result<String, Fault>
    ensures text { (files : Files) → AreTold R.remaining inputs.old files
        → IfOk result (λ text. IsTodo form format (moments_of span.now) files (string_bytes text)) }
    ensures faults { TellsFaults IsFirstFaultOfTodo R.remaining inputs.old inputs.new result }
    ensures reached { (files : Files) → AreTold R.remaining inputs.old files
        → IfErr result (OfFailedRead (IsReachedByTodo files)) }
    ensures unwritten { IfErr result (λ fault. fault ≡ Fault.WriteFailed → ⊥) }
{
    let held = evidence_in(alloc, &Opening::Plain, &mut inputs.capture, bump)?;
    let statements: Statements = text_in(alloc, InputFile::Statements, &mut inputs.statements)?;
    let text = still_to_check(alloc, bump, form, format, &held, span, &statements)?;
    Ok(text)
}

/// Each entry that the verifier knows nothing of, of those that it is asked about the evidence: in lines, or in JSON.
fn still_to_check<V: Verifier>(
    alloc: Global,
    bump: &Bump,
    form: Form,
    format: Format,
    held: &Capture<'_>,
    span: &Span,
    verifier: &V,
) -> Result<String, AllocError>
    ensures { IfOk result (λ text. (table : TableContents)
        × IsTableWithin (V.meaning verifier.now) (begin_of (moments_of span.now)) (end_of (moments_of span.now))
        held.now.rrsets table
        × ListsEntries form format (moments_of span.now) held.now.rrsets (unknown_entries table) (string_bytes text)) }
{
    let mut asked = Count::new();
    let range = span.range();
    let table = ask_within(alloc, bump, held, range, verifier, &mut asked)?;
    let unknown = table.unknown(alloc)?;
    entries_text(alloc, bump, form, format, held.rrsets(), span, &unknown)
}

/// Entries that are asked of the RRsets: each whole, or each octet once.
fn entries_text(
    alloc: Global,
    bump: &Bump,
    form: Form,
    format: Format,
    rrsets: &[Rrset<'_>],
    span: &Span,
    entries: &Entries<'_>,
) -> Result<String, AllocError>
    requires { (entry : Entry) → Contains entries.now entry
        → IsAskedWithin (begin_of (moments_of span.now)) (end_of (moments_of span.now)) rrsets.now entry }
    ensures { IfOk result (λ text. ListsEntries form format (moments_of span.now) rrsets.now entries.now
        (string_bytes text)) }
{
    match form {
        Form::Whole => todo_text(alloc, format, span.moments(), entries),
        Form::Compact => {
            let list = CompactList::of(alloc, bump, span.range(), rrsets, entries)?;
            compact_text(alloc, format, span.moments(), rrsets, &list)
        }
    }
}
