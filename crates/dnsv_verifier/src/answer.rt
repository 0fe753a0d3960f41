//! What a verifier can say.
ghost use Rattle.std.specs.Prelude.{◌≡◌};

/// What a verifier says of a signature.
#[derive(Clone, Copy, Debug, PartialEq, Eq)]
pub enum Answer {
    /// The signature is the key's over the signed data.
    Valid,
    /// It isn't.
    Invalid,
    /// The verifier can't tell, as where it doesn't have the algorithm.
    Unknown,
}

impl Answer {
    ghost use Rattle.dnsv_verifier.specs.Panel.{joined};
    ghost use Rattle.dnsv_verifier.specs.Table.{hoped_answer};

    /// The best that may come of it: Unknown may turn out Valid.
    pub(crate) fn hoped(self) -> Answer
        ensures { result ≡ hoped_answer self }
    {
        match self {
            Answer::Unknown => Answer::Valid,
            known => known,
        }
    }

    /// What two verifiers say together: Invalid where one does, else Valid where one does.
    pub(crate) fn joined(self, other: Answer) -> Answer
        ensures { result ≡ joined self other }
    {
        match (self, other) {
            (Answer::Invalid, _) | (_, Answer::Invalid) => Answer::Invalid,
            (Answer::Valid, _) | (_, Answer::Valid) => Answer::Valid,
            (Answer::Unknown, Answer::Unknown) => Answer::Unknown,
        }
    }
}
