//! Files of statements.
ghost use Rattle.std.specs.Prelude.{◌≡◌};
ghost use Rattle.dnsv_statements.specs.StatementsError.{statements_error_code};
ghost use Rattle.dnsv_files.specs.Status.{fault_number};
ghost use Rattle.dnsv_files.specs.Told.{IsStatementsFault};

use crate::files::text::{FromText, refused_line};
use crate::status::{Fault, Refusal};
use dnsv_statements::{Statements, StatementsError};
use std::alloc::Global;

impl FromText for Statements {
    ghost use Rattle.dnsv_statements.specs.Statements.{BeginsWithStatement, listed_answer};
    ghost use Rattle.dnsv_files.specs.Files.Statements.{AreStatementsRefused, IsMeaningOf};

    ghost says = { λ text listed. IsMeaningOf text (listed_answer listed) };

    ghost is_refused = { AreStatementsRefused };

    ghost begins = { BeginsWithStatement };

    ghost waits = { BeginsWithStatement };

    fn from_text(alloc: Global, text: &[u8]) -> Result<Statements, Fault> {
        match Statements::parse(alloc, text) {
            Ok(statements) => Ok(statements),
            Err(error) => Err(statements_fault(error)),
        }
    }
}

/// The fault of a text that is no statements.
fn statements_fault(error: StatementsError) -> Fault
    ensures told { IsStatementsFault error result }
    ensures number { fault_number result ≡ statements_error_code error }
{
    match error {
        StatementsError::OutOfMemory => Fault::OutOfMemory,
        StatementsError::Syntax(line) | StatementsError::Contradiction(line) => {
            refused_line(Refusal::StatementLine(error), line)
        }
    }
}
