// Lists of the elements, one after another.

ghost use Rattle.std.specs.Prelude.{◌≡◌, ℕ, ◌+◌, ◌^◌, ◌<◌, All, IfOk, length, slice_index, sum};
ghost use Rattle.pk_layout.specs.Gathered.{gathered, AreStarts, owned_by, times};

use pk_iterate::System;
use std::alloc::{AllocError, Global};

/// What the elements read, one after another: for each read the element that is read, and where each element's reads begin.
#[derive(Drop)]
pub struct Reads {
    pub targets: Vec<u32>,
    pub from: Vec<usize>,
}

/// What the elements read.
pub fn gather<Y: System>(alloc: Global, system: &Y, elements: u32) -> Result<Reads, AllocError>
    ensures targets { IfOk result (λ r. r.targets.items ≡ gathered (Y.meaning system.now).reads elements) }
    ensures from { IfOk result (λ r. AreStarts (Y.meaning system.now).reads elements r.from.items) }
{
    let mut targets = Vec::new(alloc);
    let mut from = Vec::new(alloc);
    from.push(0)?;
    for e in 0..elements {
        targets.extend_from_slice(system.reads(e))?;
        from.push(targets.len())?;
    }
    Ok(Reads { targets, from })
}

/// How often each element is read.
pub fn counted(alloc: Global, targets: &[u32], elements: u32) -> Result<Vec<usize>, AllocError>
    requires { All (λ u. u < elements) targets.now }
    ensures long { IfOk result (λ v. length v.items ≡ elements) }
    ensures each { IfOk result (λ v. (u : ℕ) → u < elements → slice_index v.items u ≡ times u targets.now) }
    ensures all { IfOk result (λ v. sum v.items ≡ length targets.now) }
{
    let mut counts = vec![in alloc; 0; elements as usize]?;
    for u in targets {
        counts[*u as usize] += 1;
    }
    Ok(counts)
}

/// Where each element's slots begin, if it has one for itself and one for each time that it is read.
pub fn own_slots(alloc: Global, counts: &[usize]) -> Result<Vec<usize>, AllocError>
    requires { sum counts.now + length counts.now < 2 ^ 64 }
    ensures { IfOk result (λ v. AreStarts (owned_by counts.now) (length counts.now) v.items) }
{
    let mut first = Vec::new(alloc);
    let mut slots = 0;
    first.push(slots)?;
    for count in counts {
        slots += *count + 1;
        first.push(slots)?;
    }
    Ok(first)
}
