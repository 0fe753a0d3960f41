//! Questions: a name, and a type that can be asked at it.
ghost use Rattle.std.specs.Prelude.{◌≡◌, ◌↔◌, IsTrue};
ghost use Rattle.std.specs.Option.{SomeIff};
ghost use Rattle.dnsv_questions.specs.Question.{IsQuestion};

use dnsv_canonical::forms_rrsets;
use dnsv_names::{Name, RecordType};
use std::marker::Model;

/// A name, as it is spelled, and a type that can be asked at it.
#[derive(Debug, Drop)]
pub struct Question {
    name: Name,
    rtype: RecordType,
}

impl Model for Question {
    ghost use Rattle.dnsv_questions.specs.Question.{Asked, IsQuestion};

    ghost Value = { Asked };

    ghost view = { λ question. record {
      name = question.name;
      rtype = question.rtype.0;
    } };

    ghost invariant = { λ question. IsQuestion question.name question.rtype.0 };
}

impl Question {
    /// The question for the type at the name. `None` where that can't be asked, as by `is_question`.
    pub fn new(name: &Name, rtype: RecordType) -> Option<Question>
        ensures { SomeIff result (IsQuestion name.now rtype.0) (record {
          name = name.now;
          rtype = rtype.0;
        }) }
    {
        if !is_question(name, rtype) {
            return None;
        }
        Some(Question {
            name: name.suffix(name.labels()),
            rtype,
        })
    }

    /// The name that is asked for.
    pub fn name(&self) -> &Name
        ensures value { result.now ≡ self.now.name }
        ensures question { IsQuestion self.now.name self.now.rtype }
    {
        &self.name
    }

    /// The type that is asked for.
    pub fn rtype(&self) -> RecordType
        ensures value { result.0 ≡ self.now.rtype }
        ensures question { IsQuestion self.now.name self.now.rtype }
    {
        self.rtype
    }
}

/// Whether the type can be asked at the name: it forms RRsets, is neither NSEC nor NSEC3, which answer no question by
/// themselves, and is not DS at the root, which no zone is above.
pub fn is_question(name: &Name, rtype: RecordType) -> bool
    ensures { IsTrue result ↔ IsQuestion name.now rtype.0 }
{
    if !forms_rrsets(rtype) || rtype == RecordType::NSEC || rtype == RecordType::NSEC3 {
        return false;
    }
    rtype != RecordType::DS || name.labels() > 0
}
