//! What stands at the head of a text about a question.
use dnsv_names::{Name, RecordType};

/// What stands at the head of the text of a verdict, or of a question that has none.
#[derive(Clone, Copy)]
pub struct Heading<'a> {
    /// The name that is asked for.
    pub name: &'a Name,
    /// The type that is asked for.
    pub rtype: RecordType,
    /// The moment that the verdict speaks of, in seconds since 1970-01-01 00:00:00 UTC.
    pub moment: u64,
    /// The exit status that goes with the verdict.
    pub status: u8,
}
