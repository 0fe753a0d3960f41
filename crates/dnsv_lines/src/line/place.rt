//! Lines that say where RRsets stand.
ghost use Rattle.std.specs.Prelude.{◌≡◌};
ghost use Rattle.dnsv_lines.specs.Rows.{rrset_row};
ghost use Rattle.dnsv_lines.specs.Sentence.{said_sentence};
ghost use Rattle.dnsv_lines.specs.Words.{section_number};

use crate::sentence::Sentence;
use crate::sentence::field::{Field, Value};
use dnsv_message::Section;
use dnsv_names::{Name, RecordType};

/// Where an RRset stands in the evidence. Messages are numbered from 1, sections by their order (RFC 1035 4.1).
#[derive(Debug, Drop)]
pub struct RrsetPlace {
    /// The number of the RRset in the evidence.
    pub rrset: usize,
    /// The number of its message.
    pub message: usize,
    pub section: Section,
    pub owner: Name,
    pub rtype: RecordType,
}

impl RrsetPlace {
    /// The number of the section: 1 for the answer, 2 for the authority and 3 for the additional section.
    pub fn section_number(&self) -> u8
        ensures { result ≡ section_number self.now.section }
    {
        match self.section {
            Section::Answer => 1,
            Section::Authority => 2,
            Section::Additional => 3,
        }
    }

    /// The line.
    pub fn sentence(&self) -> Sentence<'_>
        ensures { said_sentence result ≡ rrset_row self.now }
    {
        let section = u64::from(self.section_number());
        Sentence::of(
            "rrset",
            &[
                Field::plain("rrset", Value::count(self.rrset)),
                Field::same("message", Value::count(self.message)),
                Field::same("section", Value::Number(section)),
                Field::plain("owner", Value::Name(&self.owner)),
                Field::plain("type", Value::Number(u64::from(self.rtype.0))),
            ],
        )
    }
}
