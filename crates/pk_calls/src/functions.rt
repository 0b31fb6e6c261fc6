// The functions of a typed unit and their calls.

ghost use Rattle.std.specs.Prelude.{◌≡◌, ◌↔◌, ◌<◌, ℕ, IfOk, IsTrue, MatchOption, option_map};
ghost use Rattle.std.specs.Option.{option_copied};
ghost use Rattle.pk_typed.specs.Views.{body_tree, unit_tree};
ghost use Rattle.pk_calls.specs.Calls.{body_of, calls_of, locals_of, name_of, HasBody, IsNamed, IsEntry};

use pk_ctypes::Name;
use pk_typed::{Body, CallSite, Unit};
use std::alloc::{AllocError, Global};

/// The function's block.
pub fn body(unit: &Unit, function: usize) -> Option<&Body>
    ensures { option_map body_tree (option_copied result) ≡ body_of (unit_tree unit.now) function }
{
    if function < unit.functions.len() {
        unit.functions[function].body.as_ref()
    } else {
        None
    }
}

/// The function's calls, none where it has no body.
pub fn calls(unit: &Unit, function: usize) -> &[CallSite]
    ensures { result.now ≡ calls_of (unit_tree unit.now) function }
{
    match body(unit, function) {
        Some(body) => body.calls.as_slice(),
        None => &[],
    }
}

/// How many objects the function has.
pub fn locals(unit: &Unit, function: usize) -> usize
    ensures { result ≡ locals_of (unit_tree unit.now) function }
{
    match body(unit, function) {
        Some(body) => body.locals.len(),
        None => 0,
    }
}

/// Whether the function has a body.
pub fn has_body(unit: &Unit, function: usize) -> bool
    ensures { IsTrue result ↔ HasBody (unit_tree unit.now) function }
{
    body(unit, function).is_some()
}

/// The function's name, empty where there is no such function.
pub fn name(alloc: Global, unit: &Unit, function: usize) -> Result<Name, AllocError>
    ensures { IfOk result (λ name. name ≡ name_of (unit_tree unit.now) function) }
{
    if function < unit.functions.len() {
        unit.functions[function].name.copy()
    } else {
        Name::new(alloc, &[])
    }
}

// Whether the function has this name and a body.
fn is_named(unit: &Unit, function: usize, name: &str) -> bool
    ensures { IsTrue result ↔ IsNamed (unit_tree unit.now) name.now function }
{
    if function < unit.functions.len() {
        let function = &unit.functions[function];
        function.body.is_some() && function.name.as_str() == name
    } else {
        false
    }
}

/// The first function of a name that has a body.
pub fn entry(unit: &Unit, name: &str) -> Option<usize>
    ensures { MatchOption result ((f : ℕ) → IsNamed (unit_tree unit.now) name.now f → ⊥)
        (λ f. IsEntry (unit_tree unit.now) name.now f) }
{
    for f in 0..unit.functions.len() {
        if is_named(unit, f, name) {
            return Some(f);
        }
    }
    None
}
