//! The RRsets that a line names.
ghost use Rattle.std.specs.Prelude.{◌≡◌, ◌++◌, flat_map, OnOk};
ghost use Rattle.dnsv_lines.specs.Rows.{named_rrsets};
ghost use Rattle.dnsv_lines.specs.Sentence.{rrset_said, said};

use crate::line::Line;
use crate::sentence::field::{Field, Value};
use std::alloc::AllocError;

/// Adds the numbers of RRsets that the line names, in the order of its fields, but for those of places.
pub fn push_rrsets(numbers: &mut Vec<usize>, line: &Line) -> Result<(), AllocError>
    ensures { OnOk result (numbers.new.items ≡ numbers.old.items ++ named_rrsets line.now) }
{
    push_named(numbers, &line.sentence().fields)
}

/// Adds the numbers of RRsets that the fields say.
fn push_named(numbers: &mut Vec<usize>, fields: &[Field<'_>]) -> Result<(), AllocError>
    ensures { OnOk result (numbers.new.items
        ≡ numbers.old.items ++ flat_map (λ field. rrset_said (said field.value)) fields.now) }
{
    for field in fields {
        push_named_by(numbers, field.value)?;
    }
    Ok(())
}

/// Adds the number of an RRset, where that is what is said.
fn push_named_by(numbers: &mut Vec<usize>, value: Value<'_>) -> Result<(), AllocError>
    ensures { OnOk result (numbers.new.items ≡ numbers.old.items ++ rrset_said (said value.entry)) }
{
    match value {
        Value::Rrset(number) => {
            numbers.push(number)?;
            Ok(())
        }
        _ => Ok(()),
    }
}
