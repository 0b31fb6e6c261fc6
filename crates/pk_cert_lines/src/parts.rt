// Texts in parts, one behind the other.

ghost use Rattle.std.specs.Prelude.{◌≡◌, ◌++◌, ◌+◌, ◌<◌, ◌≤◌, ◌^◌, OnOk, length, take, drop, sum, slice_index, slice_set};

use std::alloc::{AllocError, Global};

// Where a part begins.
fn start(sizes: &[usize], p: usize) -> usize
    requires place { p ≤ length sizes.now }
    requires few { sum sizes.now < 2 ^ 64 }
    ensures { result ≡ sum (take p sizes.now) }
{
    let mut at = 0;
    for k in 0..p {
        at += sizes[k];
    }
    at
}

/// Writes another part in place of one.
pub(crate) fn put(
    alloc: Global,
    text: &mut Vec<u8>,
    sizes: &mut Vec<usize>,
    p: usize,
    part: &[u8],
) -> Result<(), AllocError>
    requires place { p < length sizes.old.items }
    requires whole { length text.old.items ≡ sum sizes.old.items }
    ensures text { OnOk result (text.new.items ≡ take (sum (take p sizes.old.items)) text.old.items
        ++ (part.now ++ drop (sum (take p sizes.old.items) + slice_index sizes.old.items p) text.old.items)) }
    ensures sizes { OnOk result (sizes.new.items ≡ slice_set sizes.old.items p (length part.now)) }
{
    let from = start(sizes, p);
    let to = from + sizes[p];
    let mut all = Vec::with_capacity(alloc, text.len().saturating_add(part.len()))?;
    all.extend_from_slice(&text[..from])?;
    all.extend_from_slice(part)?;
    all.extend_from_slice(&text[to..])?;
    *text = all;
    sizes[p] = part.len();
    Ok(())
}

// Whether the bytes from one place to another are those of the text, but for the end of both.
fn is_same(text: &[u8], bytes: &[u8], at: usize, to: usize) -> bool {
    let end = to.min(text.len().saturating_sub(1));
    if end <= at {
        return true;
    }
    end <= bytes.len() && text[at..end] == bytes[at..end]
}

/// Where a part ends that begins there.
pub(crate) fn end(sizes: &[usize], p: usize, at: usize) -> usize
    requires { p < length sizes.now }
{
    at.saturating_add(sizes[p])
}

// Where the parts from one to another end, the first of which begins there.
fn end_of(sizes: &[usize], p: usize, q: usize, at: usize) -> usize
    requires { q ≤ length sizes.now }
{
    let mut to = at;
    for k in p..q {
        to = end(sizes, k, to);
    }
    to
}

// The first stretch of parts from one on that may differ, and where it begins.
fn stretch(
    text: &[u8],
    sizes: &[usize],
    bytes: &[u8],
    from: usize,
    start: usize,
) -> (usize, usize) {
    let count = sizes.len();
    let mut p = from;
    let mut at = start;
    for _ in 0..count {
        let q = count.min(p.saturating_add(16));
        let to = end_of(sizes, p, q, at);
        if q == count || !is_same(text, bytes, at, to) {
            return (p, at);
        }
        p = q;
        at = to;
    }
    (p, at)
}

/// The first part from one on of which the bytes differ, and where it begins.
pub(crate) fn apart(
    text: &[u8],
    sizes: &[usize],
    bytes: &[u8],
    from: usize,
    start: usize,
) -> (usize, usize) {
    let count = sizes.len();
    if count == 0 || is_same(text, bytes, start, text.len()) {
        return (count, start);
    }
    // Where the last part alone differs.
    let last = text.len().saturating_sub(sizes[count - 1]);
    if start <= last && is_same(text, bytes, start, last) {
        return (count - 1, last);
    }
    let (first, place) = stretch(text, sizes, bytes, from, start);
    let mut at = place;
    for p in first..count {
        let to = end(sizes, p, at);
        if !is_same(text, bytes, at, to) {
            return (p, at);
        }
        at = to;
    }
    (count, at)
}
