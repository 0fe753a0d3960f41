//! The text of a salt.
ghost use Rattle.std.specs.Prelude.{Some};
ghost use Rattle.std.specs.List.{flat_map};
ghost use Rattle.dnsv_lines.specs.Salt.{octet_text, salt_text};

use std::fmt;

/// A salt as octets in lower case hex, `-` where it has none (RFC 5155 3.3).
#[derive(Clone, Copy)]
pub struct SaltText<'a> {
    pub salt: &'a [u8],
}

impl<'a> fmt::Display for SaltText<'a> {
    ghost output = { λ text. Some (salt_text text.salt.now) };

    fn fmt<W: fmt::Write>(&self, f: &mut fmt::Formatter<W>) -> fmt::Result {
        if self.salt.is_empty() {
            return f.write_str("-");
        }
        let digits = DigitsText { octets: self.salt };
        write!(f, "{digits}")
    }
}

/// Octets in lower case hex.
#[derive(Clone, Copy)]
struct DigitsText<'a> {
    octets: &'a [u8],
}

impl<'a> fmt::Display for DigitsText<'a> {
    ghost output = { λ text. Some (flat_map octet_text text.octets.now) };

    fn fmt<W: fmt::Write>(&self, f: &mut fmt::Formatter<W>) -> fmt::Result {
        for octet in self.octets {
            let octet = OctetText(*octet);
            write!(f, "{octet}")?;
        }
        Ok(())
    }
}

/// An octet in lower case hex.
#[derive(Clone, Copy)]
struct OctetText(u8);

impl fmt::Display for OctetText {
    ghost output = { λ text. Some (octet_text text.0) };

    fn fmt<W: fmt::Write>(&self, f: &mut fmt::Formatter<W>) -> fmt::Result {
        let octet = self.0;
        write!(f, "{octet:02x}")
    }
}
