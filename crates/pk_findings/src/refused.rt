// A text that has no report.

ghost use Rattle.std.specs.Prelude.{◌≡◌, ◌==◌, not, IfOk, map, length};
ghost use Rattle.std.specs.List.{take_while};
ghost use Rattle.std.specs.Option.{option_map};
ghost use Rattle.pk_lex.specs.Bytes.{same};
ghost use Rattle.pk_findings.specs.Refused.{words_of, place_of, without_place, said_in, IsRefused, IsRefusal};

use crate::texts::{Text, text_of};
use pk_ctypes::Pos;
use pk_show::{read_place, strip};
use std::alloc::{AllocError, Global};
use std::marker::Model;

/// A text that has no report: what `pikos` said in its place, and the place in the text that it named.
#[derive(Drop)]
pub struct Refused<'t> {
    pub text: Text<'t>,
    pub said: &'t [u8],
    pub at: Option<Pos>,
}

impl<'t> Model for Refused<'t> {
    ghost use Rattle.pk_lex.specs.Bytes.{same};
    ghost use Rattle.pk_findings.specs.Refused.{RefusedOf};

    ghost Value = { RefusedOf };

    ghost view = { λ r. record { text = r.text; said = r.said.now; at = r.at } };
}

fn words(alloc: Global, said: &[u8]) -> Result<Vec<&[u8]>, AllocError>
    ensures { IfOk result (λ words. map (λ word. word.now) words.items ≡ words_of said.now) }
{
    said.split(|b| *b == b' ').collect(alloc)
}

fn is_same(word: &[u8], other: &[u8]) -> bool
    ensures { result ≡ same word.now other.now }
{
    word == other
}

// The place that the last words tell.
#[tactic(auto, unfolding(crate::specs::Refused::place_of))]
fn place_of(words: &[&[u8]]) -> Option<Pos>
    ensures { result ≡ place_of (map (λ word. word.now) words.now) }
{
    if words.len() < 2 {
        return None;
    }
    if is_same(words[words.len() - 2], b"at") {
        read_place(words[words.len() - 1])
    } else {
        None
    }
}

fn without_place<'t>(said: &'t [u8], words: &[&[u8]], at: Option<Pos>) -> &'t [u8]
    ensures { result.now ≡ without_place said.now (map (λ word. word.now) words.now) at }
{
    match at {
        None => said,
        Some(_) => {
            let last = if words.is_empty() {
                0
            } else {
                words[words.len() - 1].len()
            };
            said.split_at(said.len().saturating_sub(last.saturating_add(4)))
                .0
        }
    }
}

fn line_end(text: &[u8]) -> usize
    ensures { result ≡ length (take_while (λ b. not (b == 10)) text.now) }
{
    text.iter().take_while(|b| **b != b'\n').count()
}

// What was said where there is no report.
fn said_in(answer: &[u8]) -> Option<&[u8]>
    ensures { option_map (λ said. said.now) result ≡ said_in answer.now }
{
    let said = strip(answer, b"pikos: ")?;
    Some(said.split_at(line_end(said)).0)
}

fn refused_by<'t>(
    alloc: Global,
    name: &'t [u8],
    bytes: &'t [u8],
    said: &'t [u8],
) -> Result<Refused<'t>, AllocError>
    ensures { IfOk result (IsRefused name.now bytes.now said.now) }
{
    let text = text_of(alloc, name, bytes)?;
    let words = words(alloc, said)?;
    let at = place_of(&words);
    let said = without_place(said, &words, at);
    Ok(Refused { text, said, at })
}

/// A text of this name and these bytes, where `pikos` answered without a report.
pub fn refusal<'t>(
    alloc: Global,
    name: &'t [u8],
    bytes: &'t [u8],
    answer: &'t [u8],
) -> Result<Option<Refused<'t>>, AllocError>
    ensures { IfOk result (IsRefusal name.now bytes.now answer.now) }
{
    match said_in(answer) {
        Some(said) => {
            let refused = refused_by(alloc, name, bytes, said)?;
            Ok(Some(refused))
        }
        None => Ok(None),
    }
}
