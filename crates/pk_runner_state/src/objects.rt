// What the objects hold.

ghost use Rattle.std.specs.Prelude.{◌≡◌, ◌∷◌, [], map, slice_set, IfOk, OnOk};
ghost use Rattle.pk_meaning.specs.Objects.{numbers_of, number_of, with_numbers};
ghost use Rattle.pk_meaning.specs.Programs as programs;
ghost use Rattle.pk_meaning.specs.Steps.{element_of};
ghost use Rattle.pk_typed.specs.Views.{start_tree};
ghost use Rattle.pk_runner_frame.specs.Frames.{object_in, array_in};
ghost use Rattle.pk_runner_state.specs.Shown.{objects_in, program_in};
ghost use Rattle.pk_typed.specs.Defaults.{no_body};

use crate::programs::{Program, count_of};
use pk_runner_frame::{Array, Object};
use pk_typed::{Body, Start};
use std::alloc::{AllocError, Global};

/// The numbers of each object: of the file, of each path, and what each path returns.
#[derive(Drop)]
pub struct Objects {
    pub files: Vec<Vec<i128>>,
    pub locals: Vec<Vec<Vec<i128>>>,
    pub results: Vec<Vec<i128>>,
}

// A row gets one number.
fn set_only(row: &mut Vec<i128>, number: &i128) -> Result<(), AllocError>
    ensures { OnOk result (row.new.items ≡ number.now ∷ []) }
{
    row.clear();
    row.push(*number)?;
    Ok(())
}

fn set_at(row: &mut Vec<i128>, place: usize, number: &i128)
    ensures { row.new.items ≡ slice_set row.old.items place number.now }
{
    if place < row.len() {
        row[place] = *number;
    }
}

fn row_of(rows: &[Vec<i128>], number: usize) -> &[i128]
    ensures { result.now ≡ slice_index_or (map (λ v. v.items) rows.now) number [] }
{
    if number < rows.len() {
        rows[number].as_slice()
    } else {
        &[]
    }
}

ghost use Rattle.std.specs.Prelude.{slice_index_or};

impl Objects {
    pub fn numbers(&self, object: Object) -> &[i128]
        ensures { result.now ≡ numbers_of (object_in object) (objects_in self.now) }
    {
        match object {
            Object::File(number) => row_of(&self.files, number),
            Object::Local(path, number) => {
                if path < self.locals.len() {
                    row_of(&self.locals[path], number)
                } else {
                    &[]
                }
            }
            Object::Result(path) => row_of(&self.results, path),
        }
    }

    /// A scalar's number.
    pub fn number(&self, object: Object) -> i128
        ensures { result ≡ number_of (object_in object) (objects_in self.now) }
    {
        let numbers = self.numbers(object);
        if numbers.len() == 0 { 0 } else { numbers[0] }
    }

    pub fn element(&self, array: Array, place: usize) -> i128
        ensures { result ≡ element_of (array_in array) place (objects_in self.now) }
    {
        let numbers = self.numbers(array.object);
        if place < numbers.len() {
            numbers[place]
        } else {
            0
        }
    }

    /// An object holds these numbers from here on.
    pub fn set_numbers(&mut self, object: Object, numbers: Vec<i128>)
        ensures { objects_in self.new ≡ with_numbers (object_in object) numbers.items (objects_in self.old) }
    {
        match object {
            Object::File(number) => {
                if number < self.files.len() {
                    self.files[number] = numbers;
                }
            }
            Object::Local(path, number) => {
                if path < self.locals.len() {
                    let row = &mut self.locals[path];
                    if number < row.len() {
                        row[number] = numbers;
                    }
                }
            }
            Object::Result(path) => {
                if path < self.results.len() {
                    self.results[path] = numbers;
                }
            }
        }
    }

    /// A scalar gets a number.
    pub fn set_number(&mut self, object: Object, number: &i128) -> Result<(), AllocError>
        ensures { OnOk result
            (objects_in self.new ≡ with_numbers (object_in object) (number.now ∷ []) (objects_in self.old)) }
    {
        match object {
            Object::File(place) => {
                if place < self.files.len() {
                    set_only(&mut self.files[place], number)?;
                }
            }
            Object::Local(path, place) => {
                if path < self.locals.len() {
                    let row = &mut self.locals[path];
                    if place < row.len() {
                        set_only(&mut row[place], number)?;
                    }
                }
            }
            Object::Result(path) => {
                if path < self.results.len() {
                    set_only(&mut self.results[path], number)?;
                }
            }
        }
        Ok(())
    }

    /// An element gets a number.
    pub fn set_element(&mut self, object: Object, place: usize, number: &i128)
        ensures { objects_in self.new ≡ with_numbers (object_in object)
            (slice_set (numbers_of (object_in object) (objects_in self.old)) place number.now) (objects_in self.old) }
    {
        match object {
            Object::File(row) => {
                if row < self.files.len() {
                    set_at(&mut self.files[row], place, number);
                }
            }
            Object::Local(path, row) => {
                if path < self.locals.len() {
                    let rows = &mut self.locals[path];
                    if row < rows.len() {
                        set_at(&mut rows[row], place, number);
                    }
                }
            }
            Object::Result(path) => {
                if path < self.results.len() {
                    set_at(&mut self.results[path], place, number);
                }
            }
        }
    }
}

/// So many zeros.
pub fn zeros(alloc: Global, count: usize) -> Result<Vec<i128>, AllocError>
    ensures { IfOk result (λ v. v.items ≡ replicate count (pos 0)) }
{
    Ok(vec![in alloc; 0i128; count]?)
}

ghost use Rattle.std.specs.Prelude.{replicate, pos};

// What an object of the file holds when a run begins.
#[tactic(auto, unfolding(pk_typed::specs::Views::start_tree))]
fn start_of(alloc: Global, start: &Start) -> Result<Vec<i128>, AllocError>
    ensures { IfOk result (λ v. v.items ≡ programs.start_of (start_tree start.now)) }
{
    match start {
        Start::Scalar(number) => {
            let mut numbers = Vec::new(alloc);
            numbers.push(*number)?;
            Ok(numbers)
        }
        Start::Array { length, items } => {
            let mut numbers = Vec::from_slice(alloc, items.as_slice())?;
            let zeros = vec![in alloc; 0i128; length.saturating_sub(items.len())]?;
            numbers.extend_from_slice(&zeros)?;
            Ok(numbers)
        }
    }
}

fn first_files(alloc: Global, program: &Program<'_>) -> Result<Vec<Vec<i128>>, AllocError>
    ensures { IfOk result
        (λ rows. map (λ v. v.items) rows.items ≡ (programs.first_objects (program_in program.now)).files) }
{
    let mut rows = Vec::new(alloc);
    for object in &program.unit.objects {
        rows.push(start_of(alloc, &object.start)?)?;
    }
    Ok(rows)
}

fn zeros_of_body(alloc: Global, body: &Body) -> Result<Vec<Vec<i128>>, AllocError>
    ensures { IfOk result (λ rows. map (λ v. v.items) rows.items ≡ map programs.zeros_of (body_tree body.now).locals) }
{
    let mut rows = Vec::new(alloc);
    for local in &body.locals {
        rows.push(zeros(alloc, count_of(local.length))?)?;
    }
    Ok(rows)
}

ghost use Rattle.pk_typed.specs.Views.{body_tree};
ghost use Rattle.pk_calls.specs.Calls.{body_of};
ghost use Rattle.std.specs.Prelude.{unwrap_or};

fn zeros_of(
    alloc: Global,
    program: &Program<'_>,
    function: usize,
) -> Result<Vec<Vec<i128>>, AllocError>
    ensures { IfOk result (λ rows. map (λ v. v.items) rows.items
        ≡ map programs.zeros_of
        (unwrap_or (body_of (program_in program.now).unit function) no_body).locals) }
{
    if function < program.unit.functions.len() {
        match &program.unit.functions[function].body {
            Some(body) => zeros_of_body(alloc, body),
            None => Ok(Vec::new(alloc)),
        }
    } else {
        Ok(Vec::new(alloc))
    }
}

fn first_locals(alloc: Global, program: &Program<'_>) -> Result<Vec<Vec<Vec<i128>>>, AllocError>
    ensures { IfOk result (λ rows. map (λ vs. map (λ v. v.items) vs.items) rows.items
        ≡ (programs.first_objects (program_in program.now)).locals) }
{
    let mut rows = Vec::new(alloc);
    for path in 0..program.paths.len() {
        rows.push(zeros_of(alloc, program, program.paths.path(path).function)?)?;
    }
    Ok(rows)
}

fn first_results(alloc: Global, program: &Program<'_>) -> Result<Vec<Vec<i128>>, AllocError>
    ensures { IfOk result
        (λ rows. map (λ v. v.items) rows.items ≡ (programs.first_objects (program_in program.now)).results) }
{
    let mut rows = Vec::new(alloc);
    for _ in 0..program.paths.len() {
        rows.push(zeros(alloc, 1)?)?;
    }
    Ok(rows)
}

/// What the objects hold before the first step.
pub fn first_objects(alloc: Global, program: &Program<'_>) -> Result<Objects, AllocError>
    ensures { IfOk result (λ x. objects_in x ≡ programs.first_objects (program_in program.now)) }
{
    Ok(Objects {
        files: first_files(alloc, program)?,
        locals: first_locals(alloc, program)?,
        results: first_results(alloc, program)?,
    })
}
