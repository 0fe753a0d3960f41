//! Calls of `dnsv_message` for names where they stand in octets.

use dnsv_message::{DecodeError, NameRef, name_ref_at};
use dnsv_row_text::{Row, RowError, order_sign, truth_text};

/// What the library answers, where it has the call.
pub fn answer(row: &Row) -> Result<Option<String>, RowError> {
    if row.calls("name_at") {
        return Ok(Some(name_at(row)?));
    }
    if row.calls("names_cmp") {
        return Ok(Some(names_cmp(row)?));
    }
    if row.calls("names_search") {
        return Ok(Some(names_search(row)?));
    }
    if row.calls("name_below") {
        return Ok(Some(name_below(row)?));
    }
    Ok(None)
}

/// `name_at OCTETS PLACE`: the name at the place, how many labels it has and how many octets its wire form, and at which
/// octet what follows it stands.
fn name_at(row: &Row) -> Result<String, RowError> {
    let octets = row.octets(0)?;
    match name_ref_at(&octets, place(row, 1)?) {
        Ok((name, end)) => {
            let (labels, length) = (name.labels(), name.wire_length());
            let name = name.to_name();
            Ok(format!(in row.alloc(); "{name} {labels} {length} {end}")?)
        }
        Err(fault) => {
            let code = DecodeError::from(fault).code();
            Ok(format!(in row.alloc(); "refused {code}")?)
        }
    }
}

/// `names_cmp OCTETS PLACE ..`: how each name compares with each in canonical order, a word of `<`, `=` and `>` for each.
fn names_cmp(row: &Row) -> Result<String, RowError> {
    let octets = row.octets(0)?;
    let names = names_in(row, &octets)?;
    let mut words = String::new(row.alloc());
    for name in &names {
        for other in &names {
            words.push(order_sign(name.canonical_cmp(other)))?;
        }
        words.push(' ')?;
    }
    Ok(String::from_str(row.alloc(), words.trim_end())?)
}

/// `names_search OCTETS PLACE ..`: the same in the order to search by, where `==` holds of just the names that are equal.
fn names_search(row: &Row) -> Result<String, RowError> {
    let octets = row.octets(0)?;
    let names = names_in(row, &octets)?;
    let mut words = String::new(row.alloc());
    for name in &names {
        for other in &names {
            let order = name.search_cmp(other);
            if order.is_eq() != (name == other) {
                return Err(RowError::Malformed);
            }
            words.push(order_sign(order))?;
        }
        words.push(' ')?;
    }
    Ok(String::from_str(row.alloc(), words.trim_end())?)
}

/// `name_below OCTETS PLACE ABOVE`: whether the first name is at or below the second.
fn name_below(row: &Row) -> Result<String, RowError> {
    let octets = row.octets(0)?;
    let names = names_in(row, &octets)?;
    let [name, above] = names.as_slice() else {
        return Err(RowError::Malformed);
    };
    Ok(truth_text(row.alloc(), name.is_at_or_below(above))?)
}

/// The names at the places behind the row's octets.
fn names_in<'a>(row: &Row, octets: &'a [u8]) -> Result<Vec<NameRef<'a>>, RowError> {
    let mut names = Vec::new(row.alloc());
    for argument in 1..row.count() {
        let Ok((name, _)) = name_ref_at(octets, place(row, argument)?) else {
            return Err(RowError::Malformed);
        };
        names.push(name)?;
    }
    Ok(names)
}

fn place(row: &Row, argument: usize) -> Result<usize, RowError> {
    match usize::try_from(row.number(argument)?) {
        Ok(place) => Ok(place),
        Err(_) => Err(RowError::Malformed),
    }
}
