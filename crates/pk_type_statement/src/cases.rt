// The cases of a `switch`.

ghost use Rattle.std.specs.Prelude.{◌≡◌, option_map, false, Some, IfOk, OnOk};
ghost use Rattle.pk_ctypes.specs.Types.{wrapped};
ghost use Rattle.pk_typed.specs.Views.{value_tree, statement_tree};
ghost use Rattle.pk_type_scope.specs.Failures.{noted};
ghost use Rattle.pk_type_declaration.specs.Views.{walked_in};
ghost use Rattle.pk_type_declaration.specs.Rules.{failing};
ghost use Rattle.pk_type_statement.specs.Rules as rules;
ghost use Rattle.pk_type_statement.specs.Numbers.{numbers_in};
ghost use Rattle.pk_type_statement.specs.Statements as definitions;
ghost use Rattle.pk_type_statement.specs.Trees as typed;
ghost use Rattle.pk_type_statement.specs.Views.{passed_in, value_in, statement_in, ended_tree, ended_in};
ghost use Rattle.pk_type_statement.specs.Rules.{noting};

use crate::boxes::boxed;
use crate::statements::{Case, Statements};
use pk_ctypes::{IntType, Pos, Rule, convert, promote};
use pk_type_declaration::{Parts, Walk};
use pk_type_scope::Typing;
use pk_typed::{Statement, Value};
use std::alloc::{AllocError, Global};
use std::collections::HashSet;
use std::mem;

/// The numbers of the cases so far.
#[derive(Drop)]
struct Numbers {
    numbers: HashSet<i128>,
}

impl Numbers {
    fn new(alloc: Global) -> Numbers
        ensures { numbers_in result ≡ rules.no_number }
    {
        Numbers {
            numbers: HashSet::new(alloc),
        }
    }

    fn contains(&self, number: i128) -> bool
        ensures { result ≡ numbers_in self.now number }
    {
        self.numbers.contains(&number)
    }

    fn add(&mut self, number: i128) -> Result<(), AllocError>
        ensures { OnOk result (numbers_in self.new ≡ rules.with_number (numbers_in self.old) number) }
    {
        let _ = self.numbers.insert(number)?;
        Ok(())
    }

    // Whether a case repeats one of them.
    fn is_repeated(&self, int_type: IntType, value: Option<i128>) -> bool
        ensures { result ≡ rules.is_repeated int_type (numbers_in self.now) value }
    {
        match value {
            None => false,
            Some(number) => self.contains(convert(int_type, number)),
        }
    }

    fn add_case(&mut self, int_type: IntType, value: Option<i128>) -> Result<(), AllocError>
        ensures { OnOk result (numbers_in self.new
            ≡ rules.and_case int_type (numbers_in self.old) value) }
    {
        match value {
            None => Ok(()),
            Some(number) => self.add(convert(int_type, number)),
        }
    }
}

fn converted(int_type: IntType, value: Option<i128>) -> Option<i128>
    ensures { result ≡ option_map (wrapped int_type) value }
{
    match value {
        None => None,
        Some(number) => Some(convert(int_type, number)),
    }
}

// Notes the cases whose value an earlier one has, and gives the values.
fn check(
    walk: &mut Walk<'_>,
    alloc: Global,
    int_type: IntType,
    cases: &[Case],
) -> Result<Option<Vec<i128>>, AllocError>
    ensures walked { OnOk result (walked_in walk.new
        ≡ failing noted (rules.repeated int_type rules.no_number cases.now) (walked_in walk.old)) }
    ensures numbers { IfOk result (λ ns. option_map (λ v. v.items) ns ≡ typed.case_numbers int_type cases.now) }
{
    let mut before = Numbers::new(alloc);
    let mut all = Parts::new(alloc);
    for case in cases {
        let is_repeated = before.is_repeated(int_type, case.value);
        walk.fail_if(is_repeated, Rule::Jump, case.at);
        before.add_case(int_type, case.value)?;
        all.add(converted(int_type, case.value))?;
    }
    Ok(all.whole())
}

/// The cases and the default of the `switch` around another.
#[derive(Drop)]
pub(crate) struct Outer {
    cases: Vec<Case>,
    has_default: bool,
}

/// What a `switch` knows at its end.
#[derive(Drop)]
pub(crate) struct Ended {
    int_type: IntType,
    numbers: Vec<i128>,
    has_default: bool,
}

fn ended_as(int_type: IntType, has_default: bool, numbers: Option<Vec<i128>>) -> Option<Ended>
    ensures { option_map ended_tree result
        ≡ option_map (typed.ended_as int_type has_default) (option_map (λ v. v.items) numbers) }
{
    match numbers {
        None => None,
        Some(numbers) => Some(Ended {
            int_type,
            numbers,
            has_default,
        }),
    }
}

impl<'a> Statements<'a> {
    /// The body of a `switch` begins with no case.
    pub(crate) fn enter_switch(&mut self, alloc: Global) -> Outer
        ensures passed { passed_in self.new ≡ definitions.in_switch (passed_in self.old) }
        ensures cases { result.cases.items ≡ (passed_in self.old).cases }
        ensures has_default { result.has_default ≡ (passed_in self.old).has_default }
    {
        let outer = Outer {
            cases: mem::replace(&mut self.cases, Vec::new(alloc)),
            has_default: self.has_default,
        };
        self.has_default = false;
        outer
    }

    // Notes the cases whose value an earlier one has.
    fn end_switch(&mut self, alloc: Global, typing: Typing) -> Result<Option<Ended>, AllocError>
        ensures walked { OnOk result (walked_in self.new.walk
            ≡ failing noted (rules.repeated_cases typing (passed_in self.old).cases)
            (walked_in self.old.walk)) }
        ensures ended { IfOk result (λ e. option_map ended_tree e ≡ typed.ended typing (passed_in self.old)) }
    {
        match typing {
            Typing::Void => Ok(None),
            Typing::Unknown => Ok(None),
            Typing::Integer(int_type) => {
                let int_type = promote(int_type);
                let numbers = check(&mut self.walk, alloc, int_type, &self.cases)?;
                Ok(ended_as(int_type, self.has_default, numbers))
            }
        }
    }

    /// The cases end with the body of their `switch`.
    pub(crate) fn leave_switch(
        &mut self,
        alloc: Global,
        typing: Typing,
        outer: Outer,
    ) -> Result<Option<Box<Ended>>, AllocError>
        ensures passed { OnOk result (passed_in self.new
            ≡ definitions.after_switch noting typing outer.cases.items outer.has_default (passed_in self.old)) }
        ensures ended { IfOk result (λ e. ended_in e ≡ typed.ended typing (passed_in self.old)) }
    {
        let ended = self.end_switch(alloc, typing)?;
        let ended = boxed(alloc, ended)?;
        self.cases = outer.cases;
        self.has_default = outer.has_default;
        Ok(ended)
    }
}

pub(crate) fn switch(
    at: Pos,
    value: Option<Box<Value>>,
    ended: Option<Box<Ended>>,
    body: Option<Box<Statement>>,
) -> Option<Statement>
    ensures { option_map statement_tree result
        ≡ typed.of_three (typed.switch_of at) (value_in value) (ended_in ended) (statement_in body) }
{
    match value {
        None => None,
        Some(value) => match ended {
            None => None,
            Some(ended) => match body {
                None => None,
                Some(body) => Some(switch_of(at, value, Box::into_inner(ended), body)),
            },
        },
    }
}

fn switch_of(at: Pos, value: Box<Value>, ended: Ended, body: Box<Statement>) -> Statement
    ensures { statement_tree result
        ≡ typed.switch_of at (value_tree value.value) (ended_tree ended) (statement_tree body.value) }
{
    let Ended {
        int_type,
        numbers,
        has_default,
    } = ended;
    Statement::switch(
        at,
        int_type,
        Box::into_inner(value),
        numbers,
        has_default,
        body,
    )
}
