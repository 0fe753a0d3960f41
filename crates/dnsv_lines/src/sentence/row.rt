//! Fields one after another.
ghost use Rattle.std.specs.Prelude.{◌≡◌, ◌≤◌, Some, flat_map, length};
ghost use Rattle.dnsv_lines.specs.Sentence as specs;

use crate::sentence::field::Field;
use arrayvec::ArrayVec;
use std::fmt;

/// The fields of a line: at most ten.
pub type Fields<'a> = ArrayVec<Field<'a>, 10>;

/// These fields.
pub fn fields_of<'a>(fields: &[Field<'a>]) -> Fields<'a>
    requires { length fields.now ≤ 10 }
    ensures { result.items ≡ fields.now }
{
    let mut row = ArrayVec::new();
    for field in fields {
        row.push(*field);
    }
    row
}

/// The text of fields, behind others.
#[derive(Clone, Copy)]
pub struct Row<'a, 'b> {
    pub fields: &'b [Field<'a>],
}

impl<'a, 'b> fmt::Display for Row<'a, 'b> {
    ghost output = { λ row. Some (flat_map (λ field. specs.field_text (specs.said_field field)) row.fields.now) };

    fn fmt<W: fmt::Write>(&self, f: &mut fmt::Formatter<W>) -> fmt::Result {
        for field in self.fields {
            write!(f, "{field}")?;
        }
        Ok(())
    }
}
