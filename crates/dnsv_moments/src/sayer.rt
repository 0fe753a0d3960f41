//! Who says what is said of a question at the moments of a range.
ghost use Rattle.std.specs.Prelude.{◌≡◌};

use crate::judging::said_at;
use crate::moments::Moments;
use crate::said::Said;
use dnsv_holding::Deriver;
use dnsv_names::{Name, RecordType};
use dnsv_questions::Format;
use dnsv_timeline::Judge;
use std::alloc::{AllocError, Global};
use std::marker::Model;

/// Says what is said of a question, with texts of the format.
#[derive(Drop)]
pub(crate) struct Sayer<'q, 'a> {
    moments: &'q Moments<'a>,
    name: &'q Name,
    rtype: RecordType,
    format: Format,
    /// Who explained at the moment before. Its hashes for names serve at the next, since they depend on the evidence
    /// alone.
    before: Option<Deriver<'a>>,
}

impl<'q, 'a> Model for Sayer<'q, 'a> {
    ghost use Rattle.std.specs.Prelude.{IfSome};
    ghost use Rattle.dnsv_moments.specs.Moments.{IsOfEvidence};
    ghost use Rattle.dnsv_moments.specs.Saying.{AskedThroughout};

    ghost Value = { AskedThroughout };

    ghost view = { λ sayer. record {
      moments = sayer.moments.now;
      name = sayer.name.now;
      rtype = sayer.rtype.0;
      format = sayer.format;
    } };

    ghost invariant = { λ sayer. IfSome sayer.before (IsOfEvidence sayer.moments.now) };
}

impl<'q, 'a> Sayer<'q, 'a> {
    /// Who says it of this question, and was asked nothing yet.
    pub(crate) fn new(
        moments: &'q Moments<'a>,
        name: &'q Name,
        rtype: RecordType,
        format: Format,
    ) -> Sayer<'q, 'a>
        ensures { result ≡ record {
          moments = moments.now;
          name = name.now;
          rtype = rtype.0;
          format = format;
        } }
    {
        Sayer {
            moments,
            name,
            rtype,
            format,
            before: None,
        }
    }
}

impl Judge<Said> for Sayer<'_, '_> {
    ghost use Rattle.dnsv_moments.specs.Saying.{IsSaidWithin};

    ghost says = { λ sayer moment said. IsSaidWithin sayer.moments sayer.format sayer.name sayer.rtype moment said };

    fn said_at(&mut self, alloc: Global, moment: u64) -> Result<Said, AllocError> {
        said_at(
            alloc,
            self.moments,
            &mut self.before,
            self.name,
            self.rtype,
            self.format,
            moment,
        )
    }

    fn is_same(&self, one: &Said, other: &Said) -> bool {
        one.is_same(other)
    }
}
