// Texts.

ghost use Rattle.std.specs.Prelude.{◌≡◌, ◌⊎◌, ◌+◌, ◌++◌, None, Some, IfOk, IfErr, OnOk, map};
ghost use Rattle.pk_ast.specs.Views as ast;
ghost use Rattle.pk_ast.specs.Views.{external_tree, external_trees};
ghost use Rattle.pk_typed.specs.Views.{function_tree, unit_tree};
ghost use Rattle.pk_type_scope.specs.declared.failures.Failure.{Failure};
ghost use Rattle.pk_type_declaration.specs.Declarations as declarations;
ghost use Rattle.pk_type.specs.Units as definitions;
ghost use Rattle.pk_type.specs.Views.{defined_names, entry_tree, filed_in};
ghost use Rattle.pk_type.specs.Rules.{noting};

use crate::defined::Defined;
use crate::files::{Entry, File};
use pk_ast::{External, Unit};
use pk_ctypes::{IntType, Pos, Rule};
use pk_type_declaration::{integer_in, type_or_int};
use pk_type_scope::{Typing, spelling};
use pk_type_statement::Statements;
use pk_typed as typed;
use pk_typed::FileObject;
use std::alloc::{AllocError, Global};

/// Why a text has no typed tree.
#[derive(Clone, Copy)]
pub enum Refusal {
    /// The rule that fails at the first place, the upper one of those that fail there.
    Type { rule: Rule, at: Pos },
    Memory,
}

impl From<AllocError> for Refusal {
    ghost use Rattle.std.specs.Prelude.{◌≡◌};
    ghost use Rattle.pk_type.specs.declared.units.Refusal.TheVariants.{Memory};

    ghost from_gives = { λ e refusal. refusal ≡ Memory };

    fn from(_e: AllocError) -> Refusal {
        Refusal::Memory
    }
}

// The functions that a text defines.
fn defined<'a>(alloc: Global, text: &'a [u8], list: &[External]) -> Result<Defined<'a>, AllocError>
    ensures { IfOk result
        (λ d. defined_names d ≡ definitions.defined_in text.now (external_trees list.now) definitions.no_name) }
{
    let mut defined = Defined::new(alloc);
    for external in list {
        and_defined(&mut defined, text, external)?;
    }
    Ok(defined)
}

// Adds a function that is defined.
#[tactic(auto, unfolding(pk_ast::specs::Views::external_tree, pk_ast::specs::Views::function_tree))]
fn and_defined<'a>(
    defined: &mut Defined<'a>,
    text: &'a [u8],
    external: &External,
) -> Result<(), AllocError>
    ensures { OnOk result (defined_names defined.new
        ≡ definitions.and_defined text.now (external_tree external.now) (defined_names defined.old)) }
{
    match external {
        External::Declaration(_, _) => Ok(()),
        External::TypeNames(_) => Ok(()),
        External::Function(function) => if function.body.is_some() {
            defined.add(spelling(text, function.name))
        } else {
            Ok(())
        },
    }
}

fn types_of(alloc: Global, list: &[Typing]) -> Result<Vec<IntType>, AllocError>
    ensures { IfOk result (λ v. v.items ≡ map declarations.type_or_int list.now) }
{
    list.iter()
        .map(|typing| type_or_int(*typing))
        .collect(alloc)
}

#[tactic(auto, unfolding(pk_typed::specs::Views::function_tree))]
fn function_of(alloc: Global, entry: Entry) -> Result<typed::Function, AllocError>
    ensures { IfOk result (λ f. function_tree f ≡ definitions.function_of (entry_tree entry)) }
{
    let Entry {
        name,
        signature,
        is_defined: _,
        body,
    } = entry;
    let parameters = types_of(alloc, &signature.parameters)?;
    Ok(typed::Function {
        name,
        returns: integer_in(signature.returns),
        parameters,
        body,
    })
}

fn functions_of(alloc: Global, entries: Vec<Entry>) -> Result<Vec<typed::Function>, AllocError>
    ensures { IfOk result
        (λ v. map function_tree v.items ≡ map definitions.function_of (map entry_tree entries.items)) }
{
    let mut functions = Vec::new(alloc);
    for entry in entries {
        let function = function_of(alloc, entry)?;
        functions.push(function)?;
    }
    Ok(functions)
}

// Two numbers that memory can't count are want of memory.
fn sum(a: usize, b: usize) -> Result<usize, AllocError>
    ensures { IfOk result (λ n. n ≡ a + b) }
{
    match a.checked_add(b) {
        Some(sum) => Ok(sum),
        None => Err(AllocError),
    }
}

// Counts the objects of an external definition after others.
#[tactic(auto, unfolding(pk_ast::specs::Views::external_tree, pk_ast::specs::Views::declaration_tree))]
fn and_objects(count: usize, external: &External) -> Result<usize, AllocError>
    ensures { IfOk result (λ n. n ≡ count + definitions.objects_of (external_tree external.now)) }
{
    match external {
        External::Declaration(_, d) => sum(count, d.declarators.len()),
        External::Function(_) => Ok(count),
        External::TypeNames(_) => Ok(count),
    }
}

// How many objects a text declares outside of functions.
fn objects_in(list: &[External]) -> Result<usize, AllocError>
    ensures { IfOk result (λ n. n ≡ definitions.objects_in (external_trees list.now)) }
{
    let mut count = 0;
    for external in list {
        count = and_objects(count, external)?;
    }
    Ok(count)
}

fn externals(
    file: &mut File<'_>,
    alloc: Global,
    defined: &Defined<'_>,
    list: &[External],
) -> Result<(), AllocError>
    ensures { OnOk result (filed_in file.new
        ≡ definitions.after_externals noting (defined_names defined.now) (external_trees list.now)
        (filed_in file.old)) }
{
    for one in list {
        external(file, alloc, defined, one)?;
    }
    Ok(())
}

#[tactic(auto, unfolding(pk_ast::specs::Views::external_tree))]
fn external(
    file: &mut File<'_>,
    alloc: Global,
    defined: &Defined<'_>,
    one: &External,
) -> Result<(), AllocError>
    ensures { OnOk result (filed_in file.new
        ≡ definitions.after_external noting (defined_names defined.now) (external_tree one.now) (filed_in file.old)) }
{
    match one {
        External::Function(f) => file.function(alloc, defined, f),
        External::Declaration(storage, d) => file.declaration(alloc, storage, d),
        External::TypeNames(d) => file.typedef(alloc, d),
    }
}

#[tactic(auto, unfolding(pk_ast::specs::Views::unit_tree))]
fn filed<'a>(alloc: Global, text: &'a [u8], unit: &Unit) -> Result<File<'a>, AllocError>
    ensures { IfOk result (λ f. filed_in f ≡ definitions.checked noting None text.now (ast.unit_tree unit.now)) }
{
    let defined = defined(alloc, text, &unit.externals)?;
    let objects = objects_in(&unit.externals)?;
    let mut file = File::new(alloc, text, objects);
    externals(&mut file, alloc, &defined, &unit.externals)?;
    Ok(file)
}

// Generic, since what is dropped where memory ends is then one value to the prover.
fn together<T: Drop>(first: Vec<T>, more: Vec<T>) -> Result<Vec<T>, AllocError>
    ensures { IfOk result (λ all. all.items ≡ first.items ++ more.items) }
{
    let mut all = first;
    let mut more = more;
    all.append(&mut more)?;
    Ok(all)
}

// The static objects that were made.
fn made_in(to: Statements<'_>) -> Vec<FileObject>
    ensures { result ≡ to.entry.walk.statics.made }
{
    let walk = to.walk;
    let statics = walk.statics;
    statics.made
}

/// The typed tree of a text in which no rule fails; else the first failure: the earliest place, and of the rules that fail there the upper one.
#[tactic(auto, using(crate::proofs::FileLemmas::objects_append), unfolding(pk_typed::specs::Views::unit_tree))]
pub fn check(alloc: Global, text: &[u8], unit: &Unit) -> Result<typed::Unit, Refusal>
    ensures accepted { let f = definitions.checked noting None text.now (ast.unit_tree unit.now) in
        IfOk result (λ u. (f.walked.found ≡ None) × (unit_tree u ≡ definitions.unit_of f)) }
    ensures refused { let f = definitions.checked noting None text.now (ast.unit_tree unit.now) in
        IfErr result (λ x. (x ≡ Refusal.Memory) ⊎
        ((failure : Failure) × (f.walked.found ≡ Some failure) × (x ≡ Refusal.Type failure.rule failure.at))) }
{
    let file = filed(alloc, text, unit)?;
    if let Some(failure) = file.to.walk.notes.found {
        return Err(Refusal::Type {
            rule: failure.rule,
            at: failure.at,
        });
    }
    let functions = functions_of(alloc, file.functions)?;
    let objects = together(file.objects, made_in(file.to))?;
    Ok(typed::Unit { objects, functions })
}
