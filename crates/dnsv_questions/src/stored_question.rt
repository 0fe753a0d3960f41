//! Questions where many are kept.
ghost use Rattle.std.specs.Prelude.{◌≡◌, IfOk};
ghost use Rattle.std.specs.Option.{SomeIff};
ghost use Rattle.dnsv_questions.specs.Question.{IsQuestion};

use crate::question::Question;
use dnsv_names::{Name, RecordType, StoredName};
use std::alloc::{AllocError, Global};
use std::marker::Model;

/// A name, as it is spelled, and the number of any type, as a file asks for them. It takes as many octets of memory as
/// the name's wire form has, where a [`Question`] has room for the longest.
#[derive(Debug, Drop)]
pub struct StoredQuestion {
    name: StoredName,
    rtype: RecordType,
}

impl Model for StoredQuestion {
    ghost use Rattle.dnsv_questions.specs.Question.{Asked};

    ghost Value = { Asked };

    ghost view = { λ question. record {
      name = question.name;
      rtype = question.rtype.0;
    } };
}

impl StoredQuestion {
    /// The name and the type.
    pub(crate) fn of(
        alloc: Global,
        name: &Name,
        rtype: RecordType,
    ) -> Result<StoredQuestion, AllocError>
        ensures { IfOk result (λ question. question ≡ record {
          name = name.now;
          rtype = rtype.0;
        }) }
    {
        let name = StoredName::of(alloc, name)?;
        Ok(StoredQuestion { name, rtype })
    }

    /// The name that is asked for, by value.
    pub fn name(&self) -> Name
        ensures { result ≡ self.now.name }
    {
        self.name.to_name()
    }

    /// The type that is asked for.
    pub fn rtype(&self) -> RecordType
        ensures { result.0 ≡ self.now.rtype }
    {
        self.rtype
    }

    /// The question. `None` where it can't be asked, as that for DS at the root.
    pub fn question(&self) -> Option<Question>
        ensures { SomeIff result (IsQuestion self.now.name self.now.rtype) self.now }
    {
        Question::new(&self.name(), self.rtype)
    }
}
