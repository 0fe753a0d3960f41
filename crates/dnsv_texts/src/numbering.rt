//! Entries that are still to be checked, by their numbers in a list.
ghost use Rattle.std.specs.Prelude.{◌≡◌, MatchOption};
ghost use Rattle.std.specs.Option.{option_map};
ghost use Rattle.dnsv_texts.specs.Why.{told_line, told_todo};

use dnsv_canonical::numbered;
use dnsv_lines::{Line, SignedRrset, Todo, TrustedKeys};

/// The line with the number of its entry by these, where it may be another line; `None` where it stays. The entries that
/// are still to be checked have these numbers, one each.
pub fn renumbered(line: &Line, numbers: Option<&[usize]>) -> Option<Line>
    ensures { MatchOption result
        (told_line (option_map (λ numbers. numbers.now) numbers.entry) line.now ≡ line.now)
        (λ told. told ≡ told_line (option_map (λ numbers. numbers.now) numbers.entry) line.now) }
{
    let Some(numbers) = numbers else {
        return None;
    };
    match line {
        Line::Trusted(keys) => Some(Line::Trusted(TrustedKeys {
            zone: keys.zone.clone().unwrap(),
            signature: keys.signature,
            key: keys.key,
            voucher: keys.voucher,
            todo: number_of(keys.todo, numbers),
        })),
        Line::Signed(signed) => Some(Line::Signed(SignedRrset {
            owner: signed.owner.clone().unwrap(),
            rtype: signed.rtype,
            signature: signed.signature,
            key: signed.key,
            zone: signed.zone.clone().unwrap(),
            keys: signed.keys,
            todo: number_of(signed.todo, numbers),
        })),
        _ => None,
    }
}

/// The number of an entry by these.
fn number_of(todo: Todo, numbers: &[usize]) -> Todo
    ensures { result ≡ told_todo numbers.now todo }
{
    let Some(place) = todo.0 else {
        return Todo(None);
    };
    match numbered(numbers, place) {
        Some(number) => Todo(Some(*number)),
        None => Todo(None),
    }
}
