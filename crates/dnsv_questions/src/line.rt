//! One line of a file of questions.
ghost use Rattle.std.specs.Prelude.{ℕ, List, ◌∷◌, [], MatchOption};
ghost use Rattle.dnsv_names.specs.Lines.{AreFields};
ghost use Rattle.dnsv_questions.specs.QuestionFile.{IsAskedLine};
ghost use Rattle.dnsv_questions.specs.Question.{Asked};

use dnsv_names::{Line, Name, RecordType, decimal_u16};

/// The name and the type that a line asks for, `None` where it asks for none. It takes no memory.
pub(crate) fn asked_of(line: &Line) -> Option<(Name, RecordType)>
    ensures { MatchOption result ((asked : Asked) → IsAskedLine line.now.octets asked → ⊥)
        (λ found. IsAskedLine line.now.octets (record { name = found.0; rtype = found.1.0 })) }
{
    let Some((name, rtype)) = two_fields(line) else {
        return None;
    };
    let Ok(name) = Name::parse(name) else {
        return None;
    };
    let Some(rtype) = decimal_u16(rtype) else {
        return None;
    };
    Some((name, RecordType(rtype)))
}

/// The fields of a line that has two.
fn two_fields<'a>(line: &Line<'a>) -> Option<(&'a [u8], &'a [u8])>
    ensures { MatchOption result
        ((name rtype : List ℕ) → AreFields line.now.octets (name ∷ rtype ∷ []) → ⊥)
        (λ found. AreFields line.now.octets (found.0.now ∷ found.1.now ∷ [])) }
{
    let Some(fields) = line.fields::<2>() else {
        return None;
    };
    Some((fields[0], fields[1]))
}
