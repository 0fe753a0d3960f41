//! Who says what holds at a moment.
ghost use Rattle.std.specs.Prelude.{◌≡◌, ◌↔◌, ℕ, IfOk, IsTrue};

use std::alloc::{AllocError, Global};

/// Says of a moment what is so of it.
pub trait Judge<S> {
    /// What may be said at a moment, in seconds since 1970.
    ghost says: { Self → ℕ → S → Type 0 };

    /// What is said at the moment. What may be said at others stays as it was, also where memory is refused: a judge may
    /// keep from one moment to the next what spares it work, and nothing that changes what it says.
    fn said_at(&mut self, alloc: Global, moment: u64) -> Result<S, AllocError>
        ensures says { IfOk result (λ said. says self.old moment said) }
        ensures same { self.new ≡ self.old };

    /// Whether both say the same.
    fn is_same(&self, one: &S, other: &S) -> bool
        ensures { IsTrue result ↔ one.now ≡ other.now };
}
