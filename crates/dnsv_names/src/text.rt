//! The text that is written for a name (RFC 1035 5.1).

pub mod parse;

ghost use Rattle.std.specs.Prelude.{◌≡◌, ◌+◌, ◌*◌, ◌<◌, ◌≤◌, ◌++◌, ◌∷◌, [], Some, IsTrue, IfSome, length};
ghost use Rattle.arrayvec.specs.ArrayString.{array_string_len};
ghost use Rattle.dnsv_names.specs.Text.{octet_text, label_text, text_of};

use crate::name::{Name, WIRE_LIMIT};
use crate::order::{behind_label, first_label};
use arrayvec::ArrayString;
use std::{fmt, str};

/// No text of a name has more octets: each octet but the root's takes four at most.
pub const TEXT_LIMIT: usize = 4 * (WIRE_LIMIT - 1);

/// Of fewer octets it takes less to push each by itself than to look whether all are plain.
const RUN_LEAST: usize = 8;

impl Name {
    /// The text of the name: each label and a dot, the root as `.`. A dot and a backslash within a label have a
    /// backslash before them, other octets 0x21 to 0x7e stand as they are, and all others as a backslash and three
    /// decimal digits.
    pub fn text(&self) -> ArrayString<TEXT_LIMIT>
        ensures { result.bytes ≡ text_of self.now }
    {
        let mut text = ArrayString::new();
        let mut rest = self.wire();
        if rest[0] == 0 {
            text.push('.');
            return text;
        }
        while rest[0] != 0 {
            push_label(&mut text, first_label(rest));
            rest = behind_label(rest);
        }
        text
    }
}

/// The text of the name.
impl fmt::Display for Name {
    ghost output = { λ name. Some (text_of name) };

    fn fmt<W: fmt::Write>(&self, f: &mut fmt::Formatter<W>) -> fmt::Result {
        f.write_str(self.text().as_str())
    }
}

/// Adds the text of a label, and a dot. The text of a name other than the root is that of its labels.
pub fn push_label<const N: usize>(text: &mut ArrayString<N>, label: &[u8])
    requires { array_string_len text.old + 4 * length label.now + 1 ≤ N }
    ensures text { text.new.bytes ≡ text.old.bytes ++ (label_text label.now ++ 46 ∷ []) }
    ensures length { array_string_len text.new ≤ array_string_len text.old + 4 * length label.now + 1 }
{
    match plain_text(label) {
        Some(run) => text.push_str(run),
        None => push_octets(text, label),
    }
    text.push('.');
}

/// The octets as a text where each stands as it is, and they are many enough to be pushed at once.
fn plain_text(octets: &[u8]) -> Option<&str>
    ensures { IfSome result (λ run. (run.now ≡ octets.now) × (label_text octets.now ≡ octets.now)) }
{
    if octets.len() < RUN_LEAST || !are_plain(octets) {
        return None;
    }
    str::from_utf8(octets).ok()
}

/// Whether each octet stands as it is. The loop has no branch, so that many are tested at once.
fn are_plain(octets: &[u8]) -> bool
    ensures { IsTrue result → label_text octets.now ≡ octets.now }
{
    let mut plain = true;
    for octet in octets {
        plain &= is_plain(*octet);
    }
    plain
}

/// Whether the octet stands as it is.
fn is_plain(octet: u8) -> bool
    ensures { IsTrue result → octet_text octet ≡ octet ∷ [] }
{
    (b'!' <= octet) & (octet <= b'~') & (octet != b'.') & (octet != b'\\')
}

/// Adds the text of each octet.
fn push_octets<const N: usize>(text: &mut ArrayString<N>, octets: &[u8])
    requires { array_string_len text.old + 4 * length octets.now ≤ N }
    ensures text { text.new.bytes ≡ text.old.bytes ++ label_text octets.now }
    ensures length { array_string_len text.new ≤ array_string_len text.old + 4 * length octets.now }
{
    for octet in octets {
        push_octet(text, *octet);
    }
}

/// Adds the text of an octet.
fn push_octet<const N: usize>(text: &mut ArrayString<N>, octet: u8)
    requires { array_string_len text.old + 4 ≤ N }
    ensures text { text.new.bytes ≡ text.old.bytes ++ octet_text octet }
    ensures length { array_string_len text.new ≤ array_string_len text.old + 4 }
{
    match octet {
        b'.' | b'\\' => {
            text.push('\\');
            text.push(char::from(octet));
        }
        b'!'..=b'~' => text.push(char::from(octet)),
        _ => {
            text.push('\\');
            text.push(char::from(b'0' + octet / 100));
            text.push(char::from(b'0' + octet / 10 % 10));
            text.push(char::from(b'0' + octet % 10));
        }
    }
}
