//! Numbers put in their order.
ghost use Rattle.std.specs.Prelude.{◌↔◌, ℕ, Contains, IfOk};
ghost use Rattle.std.specs.List.Sorted.{IsStrictlySortedBy};
ghost use Rattle.std.specs.Ordering.{nat_cmp};

use std::alloc::{AllocError, Global};

/// The numbers in their order, each once.
pub fn rising(alloc: Global, numbers: &[usize]) -> Result<Vec<usize>, AllocError>
    ensures order { IfOk result (λ ordered. IsStrictlySortedBy nat_cmp ordered.items) }
    ensures members { IfOk result (λ ordered. (k : ℕ) → Contains ordered.items k ↔ Contains numbers.now k) }
{
    let mut ordered = Vec::from_slice(alloc, numbers)?;
    ordered.sort_unstable();
    ordered.dedup();
    Ok(ordered)
}
