//! The numbers of a message that mean something by themselves.
ghost use Rattle.std.specs.Prelude.{◌↔◌, IsTrue};
ghost use Rattle.dnsv_message.specs.Flags.{HasQR, HasTC};

/// The class of a record or a question (RFC 1035 3.2.4).
#[derive(Clone, Copy, Debug, PartialEq, Eq, PartialOrd, Ord, Hash)]
pub struct Class(pub u16);

impl Class {
    /// The Internet.
    pub const IN: Class = Class(1);
}

/// The second 16 bits of a message's header (RFC 1035 4.1.1).
#[derive(Clone, Copy, Debug, PartialEq, Eq, PartialOrd, Ord, Hash)]
pub struct Flags(pub u16);

impl Flags {
    /// QR: the message is a response.
    pub const RESPONSE: u16 = 0x8000;

    /// TC: the message was cut to fit.
    pub const TRUNCATED: u16 = 0x0200;

    /// Whether QR is set: the message is a response and no query.
    pub fn is_response(self) -> bool
        ensures { IsTrue result ↔ HasQR self.0 }
    {
        self.0 & Flags::RESPONSE == Flags::RESPONSE
    }

    /// Whether TC is set: the message lacks what didn't fit.
    pub fn is_truncated(self) -> bool
        ensures { IsTrue result ↔ HasTC self.0 }
    {
        self.0 & Flags::TRUNCATED == Flags::TRUNCATED
    }
}
