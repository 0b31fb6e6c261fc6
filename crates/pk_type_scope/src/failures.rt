// Failures of rules, and which of them is answered.

ghost use Rattle.std.specs.Prelude.{◌≡◌, None, [], OnOk, ◌++◌, length};
ghost use Rattle.pk_type_scope.specs.Failures.{row_of, is_before, earlier, fails_if, noted};
ghost use Rattle.pk_type_scope.specs.Declarations.{own_site};
ghost use Rattle.pk_type_scope.specs.Notes.{noted_in, with_failures};

use crate::declarations::{Callee, Declaration};
use pk_ctypes::{Pos, Rule};
use pk_typed::CallSite;
use std::alloc::{AllocError, Global};

/// A rule that fails, and where.
#[derive(Clone, Copy)]
pub struct Failure {
    pub rule: Rule,
    pub at: Pos,
}

/// What is noted on the way over a function: the failure that would be answered so far, and the calls so far, special ones apart.
#[derive(Drop)]
pub struct Notes {
    pub found: Option<Failure>,
    pub calls: Vec<CallSite>,
}

// The rule's row in the table of rules, from above.
fn row(rule: Rule) -> u8
    ensures { result ≡ row_of rule }
{
    match rule {
        Rule::Specifiers => 0,
        Rule::Redeclared => 1,
        Rule::Extern => 2,
        Rule::Undeclared => 3,
        Rule::Void => 4,
        Rule::Array => 5,
        Rule::Constant => 6,
        Rule::Initialiser => 7,
        Rule::Place => 8,
        Rule::Const => 9,
        Rule::Arguments => 10,
        Rule::Special => 11,
        Rule::Return => 12,
        Rule::Label => 13,
        Rule::Jump => 14,
        Rule::Unsequenced => 15,
    }
}

impl Failure {
    /// Whether it is answered rather than another: it stands earlier, or at the same place its rule is the upper one.
    pub fn is_before(self, other: Failure) -> bool
        ensures { result ≡ is_before self other }
    {
        if self.at.line != other.at.line {
            return self.at.line < other.at.line;
        }
        if self.at.column != other.at.column {
            return self.at.column < other.at.column;
        }
        row(self.rule) < row(other.rule)
    }
}

fn earlier_of(found: Option<Failure>, next: Failure) -> Option<Failure>
    ensures { result ≡ earlier found next }
{
    match found {
        None => Some(next),
        Some(first) => if next.is_before(first) {
            Some(next)
        } else {
            Some(first)
        },
    }
}

impl Notes {
    pub fn new(alloc: Global) -> Notes
        ensures { noted_in result ≡ record { found = None; calls = [] } }
    {
        Notes {
            found: None,
            calls: Vec::new(alloc),
        }
    }

    /// Notes that a rule fails, where it does.
    pub fn fail_if(&mut self, fails: bool, rule: Rule, at: Pos)
        ensures { noted_in self.new ≡ with_failures (noted_in self.old) (fails_if fails rule at) }
    {
        if fails {
            self.found = earlier_of(self.found, Failure { rule, at });
        }
    }

    /// How many calls there are so far.
    pub fn count(&self) -> usize
        ensures { result ≡ length self.now.calls.items }
    {
        self.calls.len()
    }

    /// Notes the call of what a name stands for, at the name.
    pub fn call(&mut self, declared: Option<Declaration>, at: Pos) -> Result<(), AllocError>
        ensures { OnOk result (noted_in self.new
            ≡ record { found = self.old.found; calls = self.old.calls.items ++ own_site at declared }) }
    {
        if let Some(Declaration::Function(function)) = declared {
            if let Callee::Ordinary { .. } = function.callee {
                self.calls.push(CallSite {
                    function: function.number,
                    at,
                })?;
            }
        }
        Ok(())
    }
}
