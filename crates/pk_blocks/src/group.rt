// Up to thirty-two blocks behind one pointer.

ghost use Rattle.std.specs.Prelude.{◌≡◌, ℕ, ◌<◌, ◌^◌, ◌+◌, ◌*◌, ◌%◌, true, IfOk, length, slice_get, slice_set, Some, replicate};
ghost use Rattle.pk_blocks.specs.Rows.{flat, AreRows, merged_from, below};

use crate::block::{Block, ITEMS};
use crate::item::{Item, Merge};
use std::alloc::{AllocError, Global};
use std::marker::Model;
use std::sync::Arc;

/// How many items a group has at most.
pub(crate) const GROUP: usize = 512;

#[derive(Drop)]
pub(crate) struct Group<T: Item> {
    blocks: Arc<Vec<Block<T>>>,
}

impl<T: Item> Model for Group<T> {
    ghost use Rattle.std.specs.Prelude.{List};
    ghost use Rattle.std.specs.Arc.{arc_value};
    ghost use Rattle.pk_blocks.specs.Rows.{flat, AreRows};

    ghost Value = { List T };

    ghost view = { λ g. flat (arc_value g.blocks).items };

    ghost invariant = { λ g. AreRows 16 (arc_value g.blocks).items };
}

// A group of these blocks.
fn made<T: Item>(alloc: Global, blocks: Vec<Block<T>>) -> Result<Group<T>, AllocError>
    requires { AreRows 16 blocks.items }
    ensures { IfOk result (λ g. g ≡ flat blocks.items) }
{
    Ok(Group {
        blocks: Arc::new(alloc, blocks)?,
    })
}

// The same blocks, shared once more.
fn shared<T: Item>(alloc: Global, blocks: &[Block<T>]) -> Result<Vec<Block<T>>, AllocError>
    ensures { IfOk result (λ v. v.items ≡ blocks.now) }
{
    let mut out = Vec::with_capacity(alloc, blocks.len())?;
    for block in blocks {
        out.push(block.share()?)?;
    }
    Ok(out)
}

// The same blocks but one.
fn with_block<T: Item>(
    alloc: Global,
    blocks: &[Block<T>],
    k: usize,
    block: Block<T>,
) -> Result<Vec<Block<T>>, AllocError>
    requires { k < length blocks.now }
    ensures { IfOk result (λ v. v.items ≡ slice_set blocks.now k block) }
{
    let mut out = shared(alloc, blocks)?;
    out[k] = block;
    Ok(out)
}

// A block merged, if it is below the limit; else the left one. Whether it is the left one.
fn merge_block<T: Item, M: Merge<T>>(
    alloc: Global,
    a: &Block<T>,
    b: &Block<T>,
    by: &M,
    at: usize,
    limit: usize,
) -> Result<(Block<T>, bool), AllocError>
    requires left { length a.now ≡ 16 }
    requires right { length b.now ≡ 16 }
    requires room { at + 16 < 2 ^ 62 }
    requires place { at % 16 ≡ 0 }
    requires whole { limit % 16 ≡ 0 }
    ensures value { IfOk result (λ p. p.0 ≡ merged_from (below limit (M.merged by.now)) at a.now b.now) }
    ensures same { IfOk result (λ p. p.1 ≡ true → p.0 ≡ a.now) }
{
    if limit <= at {
        return Ok((a.share()?, true));
    }
    Ok(a.merge(alloc, b, by, at)?)
}

// The blocks below the limit merged, and whether they are those that were there.
fn merge_blocks<T: Item, M: Merge<T>>(
    alloc: Global,
    a: &[Block<T>],
    b: &[Block<T>],
    by: &M,
    from: usize,
    limit: usize,
) -> Result<(Vec<Block<T>>, bool), AllocError>
    requires rows { AreRows 16 a.now }
    requires others { AreRows 16 b.now }
    requires count { length a.now ≡ length b.now }
    requires room { from + length a.now * 16 < 2 ^ 62 }
    requires place { from % 16 ≡ 0 }
    requires whole { limit % 16 ≡ 0 }
    ensures value { IfOk result
        (λ p. flat p.0.items ≡ merged_from (below limit (M.merged by.now)) from (flat a.now) (flat b.now)) }
    ensures rows { IfOk result (λ p. AreRows 16 p.0.items) }
    ensures same { IfOk result (λ p. p.1 ≡ true → p.0.items ≡ a.now) }
{
    let mut out = Vec::with_capacity(alloc, a.len())?;
    let mut same = true;
    for k in 0..a.len() {
        let pair = merge_block(alloc, &a[k], &b[k], by, from + k * ITEMS, limit)?;
        same = same && pair.1;
        out.push(pair.0)?;
    }
    Ok((out, same))
}

impl<T: Item> Group<T> {
    pub(crate) fn filled(
        alloc: Global,
        block: &Block<T>,
        count: usize,
    ) -> Result<Group<T>, AllocError>
        requires { length block.now ≡ 16 }
        ensures { IfOk result (λ g. g ≡ flat (replicate count block.now)) }
    {
        let mut blocks = Vec::with_capacity(alloc, count)?;
        for _ in 0..count {
            blocks.push(block.share()?)?;
        }
        made(alloc, blocks)
    }

    #[inline]
    pub(crate) fn get(&self, i: usize) -> T
        requires { i < length self.now }
        ensures { slice_get self.now i ≡ Some result }
    {
        self.blocks[i / ITEMS].get(i % ITEMS)
    }

    #[inline]
    pub(crate) fn row(&self, i: usize) -> &[T]
        requires place { i < length self.now }
        requires first { i % 16 ≡ 0 }
        ensures size { length result.now ≡ 16 }
        ensures items { (r : ℕ) → r < 16 → slice_get result.now r ≡ slice_get self.now (i + r) }
    {
        self.blocks[i / ITEMS].row()
    }

    pub(crate) fn share(&self) -> Result<Group<T>, AllocError>
        ensures { IfOk result (λ g. g ≡ self.now) }
    {
        Ok(Group {
            blocks: Arc::try_clone(&self.blocks)?,
        })
    }

    pub(crate) fn with(&self, alloc: Global, i: usize, item: T) -> Result<Group<T>, AllocError>
        requires { i < length self.now }
        ensures { IfOk result (λ g. g ≡ slice_set self.now i item) }
    {
        let k = i / ITEMS;
        let block = self.blocks[k].with(alloc, i % ITEMS, item)?;
        made(alloc, with_block(alloc, &self.blocks, k, block)?)
    }

    // The items below the limit merged, and whether they are those that this group had, which is shared then.
    pub(crate) fn merge<M: Merge<T>>(
        &self,
        alloc: Global,
        other: &Group<T>,
        by: &M,
        from: usize,
        limit: usize,
    ) -> Result<(Group<T>, bool), AllocError>
        requires count { length self.now ≡ length other.now }
        requires room { from + length self.now < 2 ^ 62 }
        requires place { from % 16 ≡ 0 }
        requires whole { limit % 16 ≡ 0 }
        ensures value { IfOk result (λ p. p.0 ≡ merged_from (below limit (M.merged by.now)) from self.now other.now) }
        ensures same { IfOk result (λ p. p.1 ≡ true → p.0 ≡ self.now) }
    {
        let pair = merge_blocks(alloc, &self.blocks, &other.blocks, by, from, limit)?;
        if pair.1 {
            Ok((self.share()?, true))
        } else {
            Ok((made(alloc, pair.0)?, false))
        }
    }
}
