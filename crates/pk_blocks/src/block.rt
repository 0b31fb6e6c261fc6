// Sixteen items behind one pointer.

ghost use Rattle.std.specs.Prelude.{◌≡◌, ◌<◌, ◌^◌, ◌+◌, true, IfOk, length, slice_get, slice_set, Some, replicate};
ghost use Rattle.pk_blocks.specs.Rows.{merged_from};

use crate::item::{Item, Merge};
use std::alloc::{AllocError, Global};
use std::marker::Model;
use std::sync::Arc;

/// How many items a block has.
pub(crate) const ITEMS: usize = 16;

#[derive(Drop)]
pub(crate) struct Block<T: Item> {
    items: Arc<Vec<T>>,
}

impl<T: Item> Model for Block<T> {
    ghost use Rattle.std.specs.Prelude.{◌≡◌, List, length};
    ghost use Rattle.std.specs.Arc.{arc_value};

    ghost Value = { List T };

    ghost view = { λ b. (arc_value b.items).items };

    ghost invariant = { λ b. length (arc_value b.items).items ≡ 16 };
}

// Whether merging leaves the left items as they are.
fn stay<T: Item, M: Merge<T>>(a: &[T], b: &[T], by: &M, from: usize) -> bool
    requires same { length a.now ≡ length b.now }
    requires room { from + length a.now < 2 ^ 62 }
    ensures { result ≡ true → merged_from (M.merged by.now) from a.now b.now ≡ a.now }
{
    for k in 0..a.len() {
        if !by.keeps(from + k, &a[k], &b[k]) {
            return false;
        }
    }
    true
}

// The items merged, each with its place.
fn merge_items<T: Item, M: Merge<T>>(
    alloc: Global,
    a: &[T],
    b: &[T],
    by: &M,
    from: usize,
) -> Result<Vec<T>, AllocError>
    requires same { length a.now ≡ length b.now }
    requires room { from + length a.now < 2 ^ 62 }
    ensures value { IfOk result (λ v. v.items ≡ merged_from (M.merged by.now) from a.now b.now) }
    ensures size { IfOk result (λ v. length v.items ≡ length a.now) }
{
    let mut out = Vec::with_capacity(alloc, a.len())?;
    for k in 0..a.len() {
        out.push(by.merge(from + k, &a[k], &b[k]))?;
    }
    Ok(out)
}

// A block of these items.
fn made<T: Item>(alloc: Global, items: Vec<T>) -> Result<Block<T>, AllocError>
    requires { length items.items ≡ 16 }
    ensures { IfOk result (λ b. b ≡ items.items) }
{
    Ok(Block {
        items: Arc::new(alloc, items)?,
    })
}

impl<T: Item> Block<T> {
    pub(crate) fn filled(alloc: Global, item: T) -> Result<Block<T>, AllocError>
        ensures { IfOk result (λ b. b ≡ replicate 16 item) }
    {
        let mut items = Vec::with_capacity(alloc, ITEMS)?;
        for _ in 0..ITEMS {
            items.push(item)?;
        }
        made(alloc, items)
    }

    #[inline]
    pub(crate) fn get(&self, i: usize) -> T
        requires { i < 16 }
        ensures { slice_get self.now i ≡ Some result }
    {
        self.items[i]
    }

    #[inline]
    pub(crate) fn row(&self) -> &[T]
        ensures value { result.now ≡ self.now }
        ensures size { length result.now ≡ 16 }
    {
        &self.items
    }

    pub(crate) fn share(&self) -> Result<Block<T>, AllocError>
        ensures { IfOk result (λ b. b ≡ self.now) }
    {
        Ok(Block {
            items: Arc::try_clone(&self.items)?,
        })
    }

    pub(crate) fn with(&self, alloc: Global, i: usize, item: T) -> Result<Block<T>, AllocError>
        requires { i < 16 }
        ensures { IfOk result (λ b. b ≡ slice_set self.now i item) }
    {
        let mut items = Vec::from_slice(alloc, &self.items)?;
        items[i] = item;
        made(alloc, items)
    }

    // The items merged, and whether they are those that this block had, which is shared then.
    pub(crate) fn merge<M: Merge<T>>(
        &self,
        alloc: Global,
        other: &Block<T>,
        by: &M,
        from: usize,
    ) -> Result<(Block<T>, bool), AllocError>
        requires { from + 16 < 2 ^ 62 }
        ensures value { IfOk result (λ p. p.0 ≡ merged_from (M.merged by.now) from self.now other.now) }
        ensures same { IfOk result (λ p. p.1 ≡ true → p.0 ≡ self.now) }
    {
        if stay(&self.items, &other.items, by, from) {
            return Ok((self.share()?, true));
        }
        let items = merge_items(alloc, &self.items, &other.items, by, from)?;
        Ok((made(alloc, items)?, false))
    }
}
