// How reads get their slots.

ghost use Rattle.std.specs.Prelude.{ℕ, ◌^◌, ◌<◌, All, IfOk, length};
ghost use Rattle.pk_layout.specs.Gathered.{AreGiven, slot_of_read};

use std::alloc::{AllocError, Global};

/// Gives each read the next slot of the element that is read.
pub fn give(alloc: Global, first: &[usize], targets: &[u32]) -> Result<Vec<usize>, AllocError>
    requires elements { All (λ u. u < length first.now) targets.now }
    requires fit { (j : ℕ) → j < length targets.now → slot_of_read first.now targets.now j < 2 ^ 64 }
    ensures { IfOk result (λ v. AreGiven first.now targets.now (length targets.now) v.items) }
{
    let mut next = Vec::from_slice(alloc, first)?;
    let mut inputs = Vec::new(alloc);
    for u in targets {
        let slot = next[*u as usize] + 1;
        next[*u as usize] = slot;
        inputs.push(slot)?;
    }
    Ok(inputs)
}
