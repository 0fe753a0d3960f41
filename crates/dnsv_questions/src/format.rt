//! How a text is written that has two forms.

/// How a text is written that has two forms. Both say the same.
#[derive(Clone, Copy, Debug)]
pub enum Format {
    /// Lines.
    Lines,
    /// One object of JSON, on one line (RFC 8259).
    Json,
}
