//! Why something is no name.
ghost use Rattle.std.specs.Prelude.{◌≡◌};

use thiserror::Error;

/// What keeps a text, or labels, from being a name. Each has a number that stays.
#[derive(Clone, Copy, Debug, PartialEq, Eq, Error)]
pub enum NameError {
    /// 101: no octet is spelled there. A backslash stands before neither an octet 0x21 to 0x7e nor
    /// three digits up to 255, or an octet is outside 0x21 to 0x7e (RFC 1035 5.1).
    #[error("no octet is spelled there")]
    BadEscape,
    /// 102: a dot follows no label.
    #[error("a label is empty")]
    EmptyLabel,
    /// 103: a label has more than 63 octets (RFC 1035 2.3.4).
    #[error("a label has more than 63 octets")]
    LongLabel,
    /// 104: the wire form has more than 255 octets (RFC 1035 2.3.4).
    #[error("the name has more than 255 octets")]
    LongName,
    /// 105: the text doesn't end with the dot of the root (RFC 1035 5.1).
    #[error("the name doesn't end with a dot")]
    NotAbsolute,
}

impl NameError {
    ghost use Rattle.dnsv_names.specs.NameError.{code_of};

    /// The number of the refusal.
    pub fn code(&self) -> u16
        ensures { result ≡ code_of self.now }
    {
        match self {
            NameError::BadEscape => 101,
            NameError::EmptyLabel => 102,
            NameError::LongLabel => 103,
            NameError::LongName => 104,
            NameError::NotAbsolute => 105,
        }
    }
}
