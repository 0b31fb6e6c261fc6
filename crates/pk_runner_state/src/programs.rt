// A program, and what is looked up in it.

ghost use Rattle.std.specs.Prelude.{◌≡◌, ◌<◌, option_map, is_some, unwrap_or};
ghost use Rattle.std.specs.Option.{option_copied};
ghost use Rattle.pk_typed.specs.Views.{body_tree, function_tree, file_object_tree, item_trees, local_tree};
ghost use Rattle.pk_calls.specs.Calls.{body_of};
ghost use Rattle.pk_meaning.specs.Programs as programs;
ghost use Rattle.pk_graph.specs.Kinds as kinds;
ghost use Rattle.pk_runner_frame.specs.Frames.{object_in, array_in};
ghost use Rattle.pk_runner_state.specs.Shown.{program_in, is_named};
ghost use Rattle.pk_typed.specs.Defaults.{no_function, no_local, length_of_start};

use pk_calls::{CallPath, Paths};
use pk_ctypes::{IntType, Pos};
use pk_runner_frame::{Array, Object};
use pk_typed::{Body, FileObject, Function, Item, Local, Start, Unit, Variable};
use std::alloc::Global;

/// A typed unit with its call paths.
#[derive(Clone, Copy)]
pub struct Program<'a> {
    pub alloc: Global,
    pub unit: &'a Unit,
    pub paths: &'a Paths,
}

fn function_number(program: &Program<'_>, path: usize) -> usize
    ensures { result ≡ programs.function_number (program_in program.now) path }
{
    if path < program.paths.len() {
        program.paths.path(path).function
    } else {
        0
    }
}

fn function<'a>(program: &Program<'a>, path: usize) -> Option<&'a Function>
    ensures { unwrap_or (option_map function_tree (option_copied result)) no_function
        ≡ programs.function_of (program_in program.now) path }
{
    let number = function_number(program, path);
    if number < program.unit.functions.len() {
        Some(&program.unit.functions[number])
    } else {
        None
    }
}

fn block<'a>(program: &Program<'a>, path: usize) -> Option<&'a Body>
    ensures { option_map body_tree (option_copied result)
        ≡ body_of (program_in program.now).unit (programs.function_number (program_in program.now) path) }
{
    let number = function_number(program, path);
    if number < program.unit.functions.len() {
        program.unit.functions[number].body.as_ref()
    } else {
        None
    }
}

/// The type that a path's function returns.
#[tactic(auto, unfolding(pk_typed::specs::Views::function_tree))]
pub fn returns(program: &Program<'_>, path: usize) -> Option<IntType>
    ensures { result ≡ (programs.function_of (program_in program.now) path).returns }
{
    match function(program, path) {
        Some(function) => function.returns,
        None => None,
    }
}

#[tactic(auto, unfolding(pk_typed::specs::Views::function_tree))]
pub fn parameters<'a>(program: &Program<'a>, path: usize) -> &'a [IntType]
    ensures { result.now ≡ (programs.function_of (program_in program.now) path).parameters }
{
    match function(program, path) {
        Some(function) => function.parameters.as_slice(),
        None => &[],
    }
}

#[tactic(auto, unfolding(pk_typed::specs::Views::function_tree))]
pub fn is_main(program: &Program<'_>, path: usize) -> bool
    ensures { result ≡ programs.is_main (program_in program.now) path }
{
    match function(program, path) {
        Some(function) => function.name.as_str() == "main",
        None => false,
    }
}

#[tactic(auto, unfolding(pk_typed::specs::Views::body_tree))]
pub fn items<'a>(program: &Program<'a>, path: usize) -> &'a [Item]
    ensures { item_trees result.now ≡ (programs.block_of (program_in program.now) path).items }
{
    match block(program, path) {
        Some(body) => body.items.as_slice(),
        None => &[],
    }
}

const NOWHERE: Pos = Pos { line: 0, column: 0 };

#[tactic(auto, unfolding(pk_typed::specs::Views::body_tree))]
pub fn opened(program: &Program<'_>, path: usize) -> Pos
    ensures { result ≡ (programs.block_of (program_in program.now) path).opened }
{
    match block(program, path) {
        Some(body) => body.open,
        None => NOWHERE,
    }
}

#[tactic(auto, unfolding(pk_typed::specs::Views::body_tree))]
pub fn closed(program: &Program<'_>, path: usize) -> Pos
    ensures { result ≡ (programs.block_of (program_in program.now) path).closed }
{
    match block(program, path) {
        Some(body) => body.close,
        None => NOWHERE,
    }
}

/// How many of the file's objects are in scope between the braces of a path's function.
#[tactic(auto, unfolding(pk_typed::specs::Views::body_tree))]
pub fn visible(program: &Program<'_>, path: usize) -> usize
    ensures { result ≡ (programs.block_of (program_in program.now) path).visible }
{
    match block(program, path) {
        Some(body) => body.visible,
        None => 0,
    }
}

fn local<'a>(program: &Program<'a>, path: usize, number: usize) -> Option<&'a Local>
    ensures { unwrap_or (option_map local_tree (option_copied result)) no_local
        ≡ programs.local_of (program_in program.now) path number }
{
    match block(program, path) {
        Some(body) => {
            if number < body.locals.len() {
                Some(&body.locals[number])
            } else {
                None
            }
        }
        None => None,
    }
}

#[tactic(auto, unfolding(pk_typed::specs::Views::local_tree))]
pub fn local_type(program: &Program<'_>, path: usize, number: usize) -> IntType
    ensures { result ≡ (programs.local_of (program_in program.now) path number).int_type }
{
    match local(program, path, number) {
        Some(local) => local.int_type,
        None => IntType::Int,
    }
}

#[tactic(auto, unfolding(pk_typed::specs::Views::local_tree))]
fn local_length(program: &Program<'_>, path: usize, number: usize) -> Option<usize>
    ensures { result ≡ (programs.local_of (program_in program.now) path number).length }
{
    match local(program, path, number) {
        Some(local) => local.length,
        None => None,
    }
}

/// Whether an object has a name.
#[tactic(auto, unfolding(pk_typed::specs::Views::local_tree))]
pub fn has_name(program: &Program<'_>, path: usize, number: usize) -> bool
    ensures { result ≡ is_named (programs.local_of (program_in program.now) path number).name }
{
    match local(program, path, number) {
        Some(local) => local.name.is_some(),
        None => false,
    }
}

#[tactic(auto, unfolding(pk_typed::specs::Views::local_tree))]
fn local_name<'a>(program: &Program<'a>, path: usize, number: usize) -> &'a str
    ensures { result.now ≡ unwrap_or (programs.local_of (program_in program.now) path number).name [] }
{
    match local(program, path, number) {
        Some(local) => match &local.name {
            Some(name) => name.as_str(),
            None => "",
        },
        None => "",
    }
}

ghost use Rattle.std.specs.Prelude.{[]};
ghost use Rattle.pk_meaning.specs.Objects.{file};

#[tactic(auto, unfolding(pk_typed::specs::Views::file_object_tree))]
fn file_name<'a>(program: &Program<'a>, number: usize) -> &'a str
    ensures { result.now ≡ programs.name_of (program_in program.now) (file number) }
{
    if number < program.unit.objects.len() {
        program.unit.objects[number].name.as_str()
    } else {
        ""
    }
}

/// The name of an object, empty where it has none.
pub fn name_of<'a>(program: &Program<'a>, object: Object) -> &'a str
    ensures { result.now ≡ programs.name_of (program_in program.now) (object_in object) }
{
    match object {
        Object::File(number) => file_name(program, number),
        Object::Local(path, number) => local_name(program, path, number),
        Object::Result(_) => "",
    }
}

pub fn count_of(length: Option<usize>) -> usize
    ensures { result ≡ kinds.count_of length }
{
    match length {
        Some(length) => length,
        None => 1,
    }
}

/// How many numbers an object has.
pub fn local_count(program: &Program<'_>, path: usize, number: usize) -> usize
    ensures { result ≡ kinds.count_of (programs.local_of (program_in program.now) path number).length }
{
    count_of(local_length(program, path, number))
}

#[tactic(auto, unfolding(pk_typed::specs::Views::file_object_tree, pk_typed::specs::Views::start_tree))]
fn length_of_object(object: &FileObject) -> Option<usize>
    ensures { result ≡ length_of_start (file_object_tree object.now).start }
{
    match &object.start {
        Start::Scalar(_) => None,
        Start::Array { length, items: _ } => Some(*length),
    }
}

fn length_in_file(program: &Program<'_>, number: usize) -> Option<usize>
    ensures { result ≡ programs.length_of (program_in program.now) 0 (variables.File number) }
{
    if number < program.unit.objects.len() {
        length_of_object(&program.unit.objects[number])
    } else {
        None
    }
}

ghost use Rattle.pk_typed.specs.declared.values.Variable.TheVariants as variables;

fn length_of(program: &Program<'_>, path: usize, variable: Variable) -> Option<usize>
    ensures { result ≡ programs.length_of (program_in program.now) path variable }
{
    match variable {
        Variable::File(number) => length_in_file(program, number),
        Variable::Local(number) => local_length(program, path, number),
    }
}

pub fn object_of(path: usize, variable: Variable) -> Object
    ensures { object_in result ≡ programs.object_of path variable }
{
    match variable {
        Variable::File(number) => Object::File(number),
        Variable::Local(number) => Object::Local(path, number),
    }
}

pub fn array_of(program: &Program<'_>, path: usize, int_type: IntType, variable: Variable) -> Array
    ensures { array_in result ≡ programs.array_of (program_in program.now) path int_type variable }
{
    Array {
        object: object_of(path, variable),
        int_type,
        length: count_of(length_of(program, path, variable)),
    }
}

fn is_by(path: &CallPath, caller: usize, call: usize) -> bool
    ensures { result ≡ programs.is_by caller call path.now.caller }
{
    match path.caller {
        Some(by) => by.path == caller && by.call == call,
        None => false,
    }
}

/// The path that a call leads to.
pub fn callee(program: &Program<'_>, path: usize, call: usize) -> usize
    ensures { result ≡ programs.callee (program_in program.now) path call }
{
    for number in 0..program.paths.len() {
        if is_by(&program.paths.path(number), path, call) {
            return number;
        }
    }
    program.paths.len()
}
