//! How a call asks.
ghost use Rattle.std.specs.Prelude.{◌≡◌, ◌<◌, ◌≤◌, ◌^◌, ◌==◌, ◌&&◌, MatchOption, Bool, false, ℕ};
ghost use Rattle.dnsv_questions.specs.declared.format.Format.{Format};
ghost use Rattle.dnsv_commands.specs.declared.request.Form.{Form};
ghost use Rattle.dnsv_commands.specs.declared.request.Known.{Known};
ghost use Rattle.dnsv_commands.specs.declared.request.Listing.{Listing};
ghost use Rattle.dnssec_check_c.specs.Asked.{IsDetail, IsForm, IsFormat, IsKnown, IsListing, IsManner, IsSpan};

use dnsv_names::RecordType;
use dnsv_program::{Form, Known, Listing};
use dnsv_questions::{Format, Moment};
use std::alloc::Global;

/// At which moment and by what a capture is judged, and how that is written.
#[repr(C)]
#[derive(Clone, Copy)]
pub struct Options {
    /// The moment in seconds since 1970, up to 2^48 - 1. A range counts in its place where one is given.
    pub moment: u64,
    /// What it says of signatures that were verified: 0 is nothing, 1 statements, 2 answers by number.
    pub verified: u32,
    /// How the text is written: 0 is lines, 1 JSON.
    pub format: u32,
    /// Whether it says besides why a verdict stands.
    pub why: bool,
    /// Whether keys are given, by which the messages were signed.
    pub has_keys: bool,
    /// Whether the MACs of requests are given. They are read where keys are.
    pub has_macs: bool,
}

/// The moment, and how a text is written.
#[derive(Clone, Copy)]
pub struct Manner {
    pub moment: Moment,
    pub format: Format,
}

/// The first and the last moment of a range, and how a text is written.
#[derive(Clone, Copy)]
pub struct Span {
    pub from: Moment,
    pub to: Moment,
    pub format: Format,
}

impl Options {
    /// What the numbers name, where each names something.
    pub fn manner(&self) -> Option<Manner>
        ensures { MatchOption result ((moment : ℕ) (form : Format) → IsManner self.now moment form → ⊥)
            (λ manner. IsManner self.now manner.moment manner.format) }
    {
        let Some(moment) = Moment::new(self.moment) else {
            return None;
        };
        let Some(format) = format_of(self.format) else {
            return None;
        };
        Some(Manner { moment, format })
    }

    /// The same of a list, which takes no answers.
    pub fn list_manner(&self) -> Option<Manner>
        ensures { MatchOption result ((moment : ℕ) (form : Format) → self.now.verified ≤ 1
            → IsManner self.now moment form → ⊥)
            (λ manner. (self.now.verified ≤ 1) × IsManner self.now manner.moment manner.format) }
    {
        if self.verified > 1 {
            return None;
        }
        self.manner()
    }

    /// What the numbers name of a range, where each names something.
    fn span(&self, from: u64, to: u64) -> Option<Span>
        ensures { MatchOption result ((first last : ℕ) (form : Format) → IsSpan self.now from to first last form → ⊥)
            (λ span. IsSpan self.now from to span.from span.to span.format) }
    {
        let Some(from) = Moment::new(from) else {
            return None;
        };
        let Some(to) = Moment::new(to) else {
            return None;
        };
        let Some(format) = format_of(self.format) else {
            return None;
        };
        Some(Span { from, to, format })
    }

    /// The same of a list, which takes no answers.
    pub fn list_span(&self, from: u64, to: u64) -> Option<Span>
        ensures { MatchOption result ((first last : ℕ) (form : Format) → self.now.verified ≤ 1
            → IsSpan self.now from to first last form → ⊥)
            (λ span. (self.now.verified ≤ 1) × IsSpan self.now from to span.from span.to span.format) }
    {
        if self.verified >= 2 {
            return None;
        }
        self.span(from, to)
    }

    /// The same of a timeline, which takes no keys.
    pub fn timeline_span(&self, from: u64, to: u64) -> Option<Span>
        ensures { MatchOption result ((first last : ℕ) (form : Format) → self.now.has_keys ≡ false
            → IsSpan self.now from to first last form → ⊥)
            (λ span. (self.now.has_keys ≡ false) × IsSpan self.now from to span.from span.to span.format) }
    {
        if self.has_keys {
            return None;
        }
        self.span(from, to)
    }

    /// By what it is known which signatures are good, where the number names it.
    pub fn known(&self, alloc: Global) -> Option<Known>
        ensures { MatchOption result ((known : Known) → IsKnown known self.now.verified → ⊥)
            (λ known. IsKnown known self.now.verified) }
    {
        match self.verified {
            0 | 1 => Some(Known::Statements(None)),
            2 => Some(Known::Answers(String::new(alloc))),
            _ => None,
        }
    }

    /// Whether statements are given.
    pub fn has_statements(&self) -> bool
        ensures { result ≡ (self.now.verified == 1) }
    {
        self.verified == 1
    }

    /// Whether answers by number are given.
    pub fn has_answers(&self) -> bool
        ensures { result ≡ (self.now.verified == 2) }
    {
        self.verified == 2
    }

    /// Whether the MACs of requests are read.
    pub fn reads_macs(&self) -> bool
        ensures { result ≡ (self.now.has_keys && self.now.has_macs) }
    {
        self.has_keys && self.has_macs
    }
}

/// How a text is written.
fn format_of(number: u32) -> Option<Format>
    ensures { MatchOption result ((form : Format) → IsFormat form number → ⊥) (λ form. IsFormat form number) }
{
    match number {
        0 => Some(Format::Lines),
        1 => Some(Format::Json),
        _ => None,
    }
}

/// The type of a number up to 2^16 - 1.
pub fn type_of(number: u32) -> Option<RecordType>
    ensures { MatchOption result (2 ^ 16 ≤ number) (λ rtype. (number < 2 ^ 16) × (rtype.0 ≡ number)) }
{
    match u16::try_from(number) {
        Ok(number) => Some(RecordType(number)),
        Err(_) => None,
    }
}

/// What a list has.
pub fn listing_of(number: u32) -> Option<Listing>
    ensures { MatchOption result ((lists : Listing) → IsListing lists number → ⊥) (λ lists. IsListing lists number) }
{
    match number {
        0 => Some(Listing::Todo(Form::Whole)),
        1 => Some(Listing::Todo(Form::Compact)),
        2 => Some(Listing::All),
        _ => None,
    }
}

/// How entries are listed.
pub fn form_of(number: u32) -> Option<Form>
    ensures { MatchOption result ((form : Form) → IsForm form number → ⊥) (λ form. IsForm form number) }
{
    match number {
        0 => Some(Form::Whole),
        1 => Some(Form::Compact),
        _ => None,
    }
}

/// Whether a timeline has the kinds of verdicts alone.
pub fn kinds_of(number: u32) -> Option<bool>
    ensures { MatchOption result ((kinds : Bool) → IsDetail kinds number → ⊥) (λ kinds. IsDetail kinds number) }
{
    match number {
        0 => Some(false),
        1 => Some(true),
        _ => None,
    }
}
