//! Moments at which the same is said.

/// Moments one after another at which the same is said, in seconds since 1970.
#[derive(Debug, Drop)]
pub struct Stretch<S> {
    /// The first of them.
    pub from: u64,
    /// The last of them.
    pub to: u64,
    /// What is said at each of them.
    pub said: S,
}
