//! The JSON of intervals.
ghost use Rattle.std.specs.Prelude.{◌≡◌, ◌++◌, ◌∷◌, [], false, map, true, OnOk, string_bytes};
ghost use Rattle.dnsv_lines.specs.Json.{parted};
ghost use Rattle.dnsv_moments.specs.texts.Text as specs;

use crate::kind::kind_word;
use crate::said::Said;
use crate::texts::pieces::Piece;
use crate::validity::kind::Kind;
use dnsv_canonical::SignatureNumber;
use dnsv_lines::push_comma;
use std::alloc::AllocError;

/// Adds the object of each interval.
pub fn push_intervals(
    text: &mut String,
    kinds: bool,
    pieces: &[Piece<'_>],
) -> Result<(), AllocError>
    ensures { OnOk result (string_bytes text.new
        ≡ string_bytes text.old ++ parted true (map (specs.interval_json kinds) pieces.now)) }
{
    let mut first = true;
    for piece in pieces {
        push_next(text, &mut first, kinds, piece)?;
    }
    Ok(())
}

/// Adds the object of an interval, behind others or as the first.
fn push_next(
    text: &mut String,
    first: &mut bool,
    kinds: bool,
    piece: &Piece<'_>,
) -> Result<(), AllocError>
    ensures text { OnOk result (string_bytes text.new
        ≡ string_bytes text.old ++ parted first.old (specs.interval_json kinds piece.now ∷ [])) }
    ensures first { OnOk result (first.new ≡ false) }
{
    push_comma(text, first)?;
    push_interval(text, kinds, piece)?;
    Ok(())
}

/// Adds the object of an interval.
fn push_interval(text: &mut String, kinds: bool, piece: &Piece<'_>) -> Result<(), AllocError>
    ensures { OnOk result (string_bytes text.new ≡ string_bytes text.old ++ specs.interval_json kinds piece.now) }
{
    let from = piece.from;
    let to = piece.to;
    write!(text, "{{\"from\":{from},\"to\":{to}")?;
    push_kind(text, piece.first.kind())?;
    push_carried(text, kinds, piece.first)?;
    text.push_str("}")?;
    Ok(())
}

/// Adds the members of a kind, behind others.
fn push_kind(text: &mut String, kind: Kind) -> Result<(), AllocError>
    ensures { OnOk result (string_bytes text.new ≡ string_bytes text.old ++ parted false (specs.kind_members kind)) }
{
    let status = kind_status(kind);
    let Kind::Refused(error) = kind else {
        let word = kind_word(kind);
        write!(text, ",\"verdict\":\"{word}\",\"status\":{status}")?;
        return Ok(());
    };
    let number = error.code();
    write!(text, ",\"refused\":{number},\"status\":{status}")?;
    Ok(())
}

/// The exit status that goes with the kind.
fn kind_status(kind: Kind) -> u8
    ensures { result ≡ specs.kind_status kind }
{
    match kind {
        Kind::SecureAnswer | Kind::SecureAlias | Kind::SecureNoName | Kind::SecureNoData => 0,
        Kind::Insecure => 3,
        Kind::Pending => 4,
        Kind::Bogus => 5,
        Kind::Indeterminate => 6,
        Kind::Refused(_) => 7,
    }
}

/// Adds what carries it and derives it, behind others, where more than kinds is shown.
fn push_carried(text: &mut String, kinds: bool, said: &Said) -> Result<(), AllocError>
    ensures { OnOk result (string_bytes text.new ≡ string_bytes text.old ++ specs.carried_json kinds said.now) }
{
    if kinds {
        return Ok(());
    }
    text.push_str(said.text())?;
    push_by(text, said.by())?;
    Ok(())
}

/// Adds the signatures that derive it, behind others.
fn push_by(text: &mut String, by: &[SignatureNumber]) -> Result<(), AllocError>
    ensures { OnOk result (string_bytes text.new
        ≡ string_bytes text.old ++ parted false (specs.by_member by.now ∷ [])) }
{
    text.push_str(",\"by\":[")?;
    let mut first = true;
    for number in by {
        push_number(text, &mut first, *number)?;
    }
    text.push_str("]")?;
    Ok(())
}

/// Adds the object of a signature, behind others or as the first.
fn push_number(
    text: &mut String,
    first: &mut bool,
    number: SignatureNumber,
) -> Result<(), AllocError>
    ensures text { OnOk result (string_bytes text.new
        ≡ string_bytes text.old ++ parted first.old (specs.by_json number ∷ [])) }
    ensures first { OnOk result (first.new ≡ false) }
{
    let rrset = number.rrset;
    let signature = number.signature;
    push_comma(text, first)?;
    write!(text, "{{\"rrset\":{rrset},\"signature\":{signature}}}")?;
    Ok(())
}
