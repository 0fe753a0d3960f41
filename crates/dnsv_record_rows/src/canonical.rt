//! Calls of `dnsv_canonical`.

use dnsv_canonical::{forms_rrsets, signed_label_count};
use dnsv_names::RecordType;
use dnsv_questions::{Question, is_question};
use dnsv_row_text::{Row, RowError, none_text, truth_text};

pub mod again;
mod records;
pub mod rrsets;
mod signing;

/// What the library answers, where it has the call.
pub fn answer(row: &Row) -> Result<Option<String>, RowError> {
    if row.calls("label-count") {
        return Ok(Some(label_count(row)?));
    }
    if row.calls("forms-rrsets") {
        return Ok(Some(forms(row)?));
    }
    if row.calls("is-question") {
        return Ok(Some(askable(row)?));
    }
    if row.calls("question") {
        return Ok(Some(question(row)?));
    }
    if let Some(text) = rrsets::answer(row)? {
        return Ok(Some(text));
    }
    if let Some(text) = records::answer(row)? {
        return Ok(Some(text));
    }
    signing::answer(row)
}

/// `label-count NAME`: how many labels of the name a signature counts.
fn label_count(row: &Row) -> Result<String, RowError> {
    let count = signed_label_count(&row.name(0)?);
    Ok(format!(in row.alloc(); "{count}")?)
}

/// `forms-rrsets TYPE`: whether records of the type form RRsets.
fn forms(row: &Row) -> Result<String, RowError> {
    let forms = forms_rrsets(record_type(row, 0)?);
    Ok(truth_text(row.alloc(), forms)?)
}

/// `is-question NAME TYPE`: whether the type can be asked at the name.
fn askable(row: &Row) -> Result<String, RowError> {
    let asked = is_question(&row.name(0)?, record_type(row, 1)?);
    Ok(truth_text(row.alloc(), asked)?)
}

/// `question NAME TYPE`: the question for the type at the name, `NAME TYPE` again, or `none` where it can't be asked.
fn question(row: &Row) -> Result<String, RowError> {
    let Some(question) = Question::new(&row.name(0)?, record_type(row, 1)?) else {
        return Ok(none_text(row.alloc())?);
    };
    let (name, rtype) = (question.name(), question.rtype().0);
    Ok(format!(in row.alloc(); "{name} {rtype}")?)
}

/// The type whose number the argument is.
fn record_type(row: &Row, place: usize) -> Result<RecordType, RowError> {
    match u16::try_from(row.number(place)?) {
        Ok(number) => Ok(RecordType(number)),
        Err(_) => Err(RowError::Malformed),
    }
}
