// How far a text goes as pieces of a line.

ghost use Rattle.std.specs.Prelude.{◌≡◌, false, drop, take};
ghost use Rattle.pk_wrong_byte.specs.Pieces.{reached, common, literal, part_size, name_size, name, is_count, begins_number, is_number, count_size, number_size, count, number, place, call, call_count, path};

use pk_show::{is_name, is_part_byte, is_same, signed};
use std::marker::Model;

/// What stands behind the bytes that may stand there, and whether the pieces are whole so far.
#[derive(Drop)]
pub(crate) struct Reached<'t> {
    pub(crate) rest: &'t [u8],
    pub(crate) is_open: bool,
}

impl<'t> Model for Reached<'t> {
    ghost use Rattle.pk_wrong_byte.specs.Pieces.{ReachedOf};

    ghost Value = { ReachedOf };

    ghost view = { λ r. record { rest = r.rest.now; is_open = r.is_open } };
}

#[tactic(auto, using(std::proofs::lemmas::List::take_all, std::proofs::lemmas::List::drop_all))]
fn parted(text: &[u8], size: usize) -> (&[u8], &[u8])
    ensures front { result.0.now ≡ take size text.now }
    ensures rest { result.1.now ≡ drop size text.now }
{
    if size <= text.len() {
        text.split_at(size)
    } else {
        (text, b"")
    }
}

fn closed<'t>(r: &Reached<'t>) -> Reached<'t>
    ensures { result ≡ reached r.now.rest false }
{
    Reached {
        rest: r.rest,
        is_open: false,
    }
}

fn common(text: &[u8], word: &[u8]) -> usize
    ensures { result ≡ common word.now text.now }
{
    text.iter()
        .zip(word.iter())
        .take_while(|(a, b)| **a == **b)
        .count()
}

/// A literal.
#[tactic(auto, unfolding(crate::specs::Pieces::literal))]
pub(crate) fn literal<'t>(r: &Reached<'t>, word: &[u8]) -> Reached<'t>
    ensures { result ≡ literal word.now r.now }
{
    if !r.is_open {
        return closed(r);
    }
    let (front, rest) = parted(r.rest, common(r.rest, word));
    Reached {
        rest,
        is_open: is_same(front, word),
    }
}

fn part_size(text: &[u8]) -> usize
    ensures { result ≡ part_size text.now }
{
    text.iter().take_while(|b| is_part_byte(**b)).count()
}

fn name_size(text: &[u8]) -> usize
    ensures { result ≡ name_size text.now }
{
    let size = part_size(text);
    if is_name(parted(text, size).0) {
        size
    } else {
        0
    }
}

/// A name.
#[tactic(auto, unfolding(crate::specs::Pieces::name))]
pub(crate) fn name<'t>(r: &Reached<'t>) -> Reached<'t>
    ensures { result ≡ name r.now }
{
    if !r.is_open {
        return closed(r);
    }
    let (front, rest) = parted(r.rest, name_size(r.rest));
    Reached {
        rest,
        is_open: is_name(front),
    }
}

fn is_count(text: &[u8]) -> bool
    ensures { result ≡ is_count text.now }
{
    pk_show::count(text).is_some()
}

fn is_number(text: &[u8]) -> bool
    ensures { result ≡ is_number text.now }
{
    signed(text).is_some()
}

fn begins_number(text: &[u8]) -> bool
    ensures { result ≡ begins_number text.now }
{
    is_number(text) || is_same(text, b"-")
}

fn count_size(text: &[u8]) -> usize
    ensures { result ≡ count_size text.now }
{
    for k in 0..text.len() {
        if !is_count(&text[..k + 1]) {
            return k;
        }
    }
    text.len()
}

fn number_size(text: &[u8]) -> usize
    ensures { result ≡ number_size text.now }
{
    for k in 0..text.len() {
        if !begins_number(&text[..k + 1]) {
            return k;
        }
    }
    text.len()
}

/// A number that isn't below 0.
#[tactic(auto, unfolding(crate::specs::Pieces::count))]
pub(crate) fn count<'t>(r: &Reached<'t>) -> Reached<'t>
    ensures { result ≡ count r.now }
{
    if !r.is_open {
        return closed(r);
    }
    let (front, rest) = parted(r.rest, count_size(r.rest));
    Reached {
        rest,
        is_open: is_count(front),
    }
}

/// A number.
#[tactic(auto, unfolding(crate::specs::Pieces::number))]
pub(crate) fn number<'t>(r: &Reached<'t>) -> Reached<'t>
    ensures { result ≡ number r.now }
{
    if !r.is_open {
        return closed(r);
    }
    let (front, rest) = parted(r.rest, number_size(r.rest));
    Reached {
        rest,
        is_open: is_number(front),
    }
}

/// A place.
pub(crate) fn place<'t>(r: &Reached<'t>) -> Reached<'t>
    ensures { result ≡ place r.now }
{
    count(&literal(&count(r), b":"))
}

fn call<'t>(r: &Reached<'t>) -> Reached<'t>
    ensures { result ≡ call r.now }
{
    place(&literal(&name(&literal(r, b">")), b"@"))
}

fn call_count(text: &[u8]) -> usize
    ensures { result ≡ call_count text.now }
{
    text.iter()
        .take_while(|b| **b != b' ')
        .filter(|b| **b == b'>')
        .count()
}

/// A call path.
pub(crate) fn path<'t>(r: &Reached<'t>) -> Reached<'t>
    ensures { result ≡ path r.now }
{
    let mut there = name(r);
    let count = call_count(there.rest);
    for _k in 0..count {
        there = call(&there);
    }
    there
}
