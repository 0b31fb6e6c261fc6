// Call paths.

ghost use Rattle.std.specs.Prelude.{◌≡◌, ◌<◌, ◌≤◌, ℕ, List, Some, IfOk, length, slice_get};
ghost use Rattle.pk_typed.specs.Views.{unit_tree};
ghost use Rattle.pk_calls.specs.Forests.{IsCounted};
ghost use Rattle.pk_calls.specs.Paths.{IsListing, LeadsTo};
ghost use Rattle.pk_calls.specs.Answers.{path_limit};

use crate::functions::calls;
use crate::walk::Counts;
use pk_typed::Unit;
use std::alloc::{AllocError, Global};
use std::marker::Model;

/// A path, and a call of its function, both by number.
#[derive(Clone, Copy)]
pub struct Caller {
    pub path: usize,
    pub call: usize,
}

/// A call path: the function that it leads to, and the path and call that lead there, none for the entry.
#[derive(Clone, Copy)]
pub struct CallPath {
    pub function: usize,
    pub caller: Option<Caller>,
}

/// All call paths of a unit from an entry. Contracts see their list.
#[derive(Drop)]
pub struct Paths {
    list: Vec<CallPath>,
    firsts: Vec<usize>,
}

impl Model for Paths {
    ghost use Rattle.std.specs.Prelude.{List};
    ghost use Rattle.pk_calls.specs.declared.listings.CallPath.{CallPath};
    ghost use Rattle.pk_calls.specs.Paths.{AreFirsts};

    ghost Value = { List CallPath };

    ghost view = { λ p. p.list.items };

    ghost invariant = { λ p. AreFirsts p.list.items p.firsts.items };
}

impl Paths {
    /// How many call paths there are.
    pub fn len(&self) -> usize
        ensures { result ≡ length self.now }
    {
        self.list.len()
    }

    pub fn path(&self, number: usize) -> CallPath
        requires { number < length self.now }
        ensures { slice_get self.now number ≡ Some result }
    {
        self.list[number]
    }

    /// The number of the path that a path's call leads to.
    pub fn callee(&self, path: usize, call: usize) -> usize
        requires { (to : ℕ) × LeadsTo self.now path call to }
        ensures { LeadsTo self.now path call result }
    {
        self.firsts[path] + call
    }
}

/// The call paths from an entry, of which there are so many.
pub fn listed(alloc: Global, unit: &Unit, entry: usize, counts: Counts) -> Result<Paths, AllocError>
    requires counted { IsCounted (unit_tree unit.now) entry counts.paths counts.variables }
    requires few { counts.paths ≤ path_limit }
    ensures { IfOk result (λ paths. IsListing (unit_tree unit.now) entry paths) }
{
    let mut list = Vec::new(alloc);
    let mut firsts = Vec::new(alloc);
    list.push(CallPath {
        function: entry,
        caller: None,
    })?;
    for path in 0..counts.paths as usize {
        firsts.push(list.len())?;
        let function = list[path].function;
        for (call, site) in calls(unit, function).iter().enumerate() {
            list.push(CallPath {
                function: site.function,
                caller: Some(Caller { path, call }),
            })?;
        }
    }
    Ok(Paths { list, firsts })
}
