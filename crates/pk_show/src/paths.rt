// Call paths.

ghost use Rattle.std.specs.Prelude.{◌≡◌, IfOk, map};
ghost use Rattle.std.specs.Option.{option_map};
ghost use Rattle.pk_show.specs.Paths.{place_from, call_in, calls_in, path_in, parts_of, whole_in};

use crate::pieces::{cut, is_name, place};
use pk_ctypes::Pos;
use std::alloc::{AllocError, Global};
use std::marker::Model;

/// A call of a function.
#[derive(Drop)]
pub struct Call<'t> {
    pub name: &'t [u8],
    pub at: Pos,
}

impl<'t> Model for Call<'t> {
    ghost use Rattle.pk_show.specs.Paths.{CallOf};

    ghost Value = { CallOf };

    ghost view = { λ c. record { name = c.name.now; at = c.at } };
}

/// The place that a text is.
#[tactic(auto, unfolding(crate::specs::Paths::place_from))]
pub fn read_place(text: &[u8]) -> Option<Pos>
    ensures { result ≡ place_from text.now }
{
    let (line, column) = cut(text, b":")?;
    place(line, column)
}

/// The call that a part of a path is.
#[tactic(auto, unfolding(crate::specs::Paths::call_in))]
fn read_call(part: &[u8]) -> Option<Call<'_>>
    ensures { result ≡ call_in part.now }
{
    let (name, text) = cut(part, b"@")?;
    let (line, column) = cut(text, b":")?;
    if is_name(name) {
        let at = place(line, column)?;
        Some(Call { name, at })
    } else {
        None
    }
}

// What stands between the `>`.
fn parts(alloc: Global, path: &[u8]) -> Result<Vec<&[u8]>, AllocError>
    ensures { IfOk result (λ parts. map (λ part. part.now) parts.items ≡ parts_of path.now) }
{
    path.split(|b| *b == b'>').collect(alloc)
}

// The calls that parts of a path are.
fn calls<'t>(alloc: Global, parts: &[&'t [u8]]) -> Result<Option<Vec<Call<'t>>>, AllocError>
    ensures { IfOk result (λ calls. option_map (λ c. c.items) calls ≡ calls_in (map (λ part. part.now) parts.now)) }
{
    let mut calls = Vec::new(alloc);
    for k in 0..parts.len() {
        match read_call(parts[k]) {
            Some(call) => calls.push(call)?,
            None => return Ok(None),
        }
    }
    Ok(Some(calls))
}

/// The function that runs begin with, and the calls that lead from it.
#[derive(Drop)]
pub struct Path<'t> {
    pub entry: &'t [u8],
    pub calls: Vec<Call<'t>>,
}

impl<'t> Model for Path<'t> {
    ghost use Rattle.pk_show.specs.Paths.{PathOf};

    ghost Value = { PathOf };

    ghost view = { λ p. record { entry = p.entry.now; calls = p.calls.items } };
}

/// The path that a text is.
pub fn read_path<'t>(alloc: Global, text: &'t [u8]) -> Result<Option<Path<'t>>, AllocError>
    ensures { IfOk result (λ path. path ≡ path_in text.now) }
{
    let parts = parts(alloc, text)?;
    let Some((entry, others)) = parts.split_first() else {
        return Ok(None);
    };
    if !is_name(entry) {
        return Ok(None);
    }
    match calls(alloc, others)? {
        Some(calls) => Ok(Some(Path { entry, calls })),
        None => Ok(None),
    }
}
