// Lists in groups of blocks.

ghost use Rattle.std.specs.Prelude.{◌≡◌, ℕ, ◌<◌, ◌≤◌, ◌+◌, ◌*◌, ◌/◌, ◌%◌, ◌^◌, IfOk, OnOk, OnErr, length, take, slice_get, slice_set, Some, replicate};
ghost use Rattle.pk_blocks.specs.Rows.{flat, AreRows, merged_from, below, group_size};

use crate::block::{Block, ITEMS};
use crate::group::{GROUP, Group};
use crate::item::{Item, Merge};
use std::alloc::{AllocError, Global};
use std::marker::Model;
use std::sync::Arc;

/// A list. Copies share what they have in common.
#[derive(Drop)]
pub struct Blocks<T: Item> {
    // Each has 512 items, but where there is one alone; those past the length are any.
    groups: Arc<Vec<Group<T>>>,
    count: usize,
}

impl<T: Item> Model for Blocks<T> {
    ghost use Rattle.std.specs.Prelude.{◌≡◌, ◌<◌, ◌+◌, ◌/◌, ◌^◌, List, length, take};
    ghost use Rattle.std.specs.Arc.{arc_value};
    ghost use Rattle.pk_blocks.specs.Rows.{flat, AreRows, group_size};

    ghost Value = { List T };

    ghost view = { λ b. take b.count (flat (arc_value b.groups).items) };

    ghost invariant = { λ b. AreRows (group_size b.count) (arc_value b.groups).items
        × (length (arc_value b.groups).items ≡ b.count / 512 + 1) × (b.count < 2 ^ 60) };
}

// The same groups, shared once more.
fn shared<T: Item>(alloc: Global, groups: &[Group<T>]) -> Result<Vec<Group<T>>, AllocError>
    ensures { IfOk result (λ v. v.items ≡ groups.now) }
{
    let mut out = Vec::with_capacity(alloc, groups.len())?;
    for group in groups {
        out.push(group.share()?)?;
    }
    Ok(out)
}

// So many groups, all alike.
fn filled_groups<T: Item>(
    alloc: Global,
    group: &Group<T>,
    count: usize,
) -> Result<Vec<Group<T>>, AllocError>
    ensures { IfOk result (λ v. v.items ≡ replicate count group.now) }
{
    let mut out = Vec::with_capacity(alloc, count)?;
    for _ in 0..count {
        out.push(group.share()?)?;
    }
    Ok(out)
}

// The same groups but one.
fn with_group<T: Item>(
    alloc: Global,
    groups: &[Group<T>],
    k: usize,
    group: Group<T>,
) -> Result<Vec<Group<T>>, AllocError>
    requires { k < length groups.now }
    ensures { IfOk result (λ v. v.items ≡ slice_set groups.now k group) }
{
    let mut out = shared(alloc, groups)?;
    out[k] = group;
    Ok(out)
}

// How many blocks a group of a list of so many items has.
fn group_blocks(count: usize) -> usize
    ensures value { result * 16 ≡ group_size count }
    ensures most { result ≤ 32 }
{
    if count < GROUP {
        count / ITEMS + 1
    } else {
        GROUP / ITEMS
    }
}

// The items below the limit merged, of lists of so many.
fn merge_groups<T: Item, M: Merge<T>>(
    alloc: Global,
    a: &[Group<T>],
    b: &[Group<T>],
    by: &M,
    size: usize,
    limit: usize,
) -> Result<Vec<Group<T>>, AllocError>
    requires rows { AreRows (group_size size) a.now }
    requires others { AreRows (group_size size) b.now }
    requires count { length a.now ≡ size / 512 + 1 }
    requires counted { length b.now ≡ size / 512 + 1 }
    requires room { size < 2 ^ 60 }
    requires whole { limit % 16 ≡ 0 }
    ensures value { IfOk result
        (λ v. flat v.items ≡ merged_from (below limit (M.merged by.now)) 0 (flat a.now) (flat b.now)) }
    ensures rows { IfOk result (λ v. AreRows (group_size size) v.items) }
    ensures count { IfOk result (λ v. length v.items ≡ length a.now) }
{
    let mut out = Vec::with_capacity(alloc, a.len())?;
    for k in 0..a.len() {
        let pair = a[k].merge(alloc, &b[k], by, k * GROUP, limit)?;
        out.push(pair.0)?;
    }
    Ok(out)
}

impl<T: Item> Blocks<T> {
    /// So many times the same item. There is no memory for 2^60 or more.
    pub fn filled(alloc: Global, item: T, count: usize) -> Result<Blocks<T>, AllocError>
        ensures { IfOk result (λ b. b ≡ replicate count item) }
    {
        if 1 << 60 <= count {
            return Err(AllocError);
        }
        let block = Block::filled(alloc, item)?;
        let group = Group::filled(alloc, &block, group_blocks(count))?;
        let groups = filled_groups(alloc, &group, count / GROUP + 1)?;
        Ok(Blocks {
            groups: Arc::new(alloc, groups)?,
            count,
        })
    }

    /// How many items there are.
    pub fn len(&self) -> usize
        ensures value { result ≡ length self.now }
        ensures small { result < 2 ^ 60 }
    {
        self.count
    }

    /// The item of a place.
    #[inline]
    pub fn get(&self, i: usize) -> T
        requires { i < length self.now }
        ensures { slice_get self.now i ≡ Some result }
    {
        self.groups[i / GROUP].get(i % GROUP)
    }

    /// The sixteen items from a place on that stand together; those past the list's end are any.
    #[inline]
    pub fn row(&self, i: usize) -> &[T]
        requires place { i < length self.now }
        requires first { i % 16 ≡ 0 }
        ensures size { length result.now ≡ 16 }
        ensures items { (r : ℕ) → r < 16 → i + r < length self.now →
            slice_get result.now r ≡ slice_get self.now (i + r) }
    {
        self.groups[i / GROUP].row(i % GROUP)
    }

    /// Writes an item: its block is copied, and the rest stays shared.
    pub fn set(&mut self, alloc: Global, i: usize, item: T) -> Result<(), AllocError>
        requires { i < length self.old }
        ensures ok { OnOk result (self.new ≡ slice_set self.old i item) }
        ensures err { OnErr result (self.new ≡ self.old) }
    {
        let k = i / GROUP;
        let group = self.groups[k].with(alloc, i % GROUP, item)?;
        let groups = with_group(alloc, &self.groups, k, group)?;
        self.groups = Arc::new(alloc, groups)?;
        Ok(())
    }

    /// The same list, which shares all.
    pub fn copy(&self, alloc: Global) -> Result<Blocks<T>, AllocError>
        ensures { IfOk result (λ b. b ≡ self.now) }
    {
        let _ = alloc;
        Ok(Blocks {
            groups: Arc::try_clone(&self.groups)?,
            count: self.count,
        })
    }

    /// Item by item; blocks that stay as they are here are shared.
    pub fn merge<M: Merge<T>>(
        &self,
        alloc: Global,
        other: &Blocks<T>,
        by: &M,
    ) -> Result<Blocks<T>, AllocError>
        requires { length self.now ≡ length other.now }
        ensures { IfOk result (λ b. b ≡ merged_from (M.merged by.now) 0 self.now other.now) }
    {
        // Blocks past the last item are left as they are.
        let limit = (self.count + ITEMS - 1) / ITEMS * ITEMS;
        let groups = merge_groups(alloc, &self.groups, &other.groups, by, self.count, limit)?;
        Ok(Blocks {
            groups: Arc::new(alloc, groups)?,
            count: self.count,
        })
    }
}
