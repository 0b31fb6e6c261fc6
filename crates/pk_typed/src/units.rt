// Typed functions, objects of the file, and units (C99 6.9).

use crate::statements::Item;
use pk_ctypes::{IntType, Name, Pos};

/// An object of a function: a parameter, which may have no name, or a declared one.
#[derive(Drop)]
pub struct Local {
    pub name: Option<Name>,
    pub int_type: IntType,
    /// The number of elements of an array, none of a scalar.
    pub length: Option<usize>,
}

/// A call of a function, by the function's number, at its name.
#[derive(Clone, Copy)]
pub struct CallSite {
    pub function: usize,
    pub at: Pos,
}

/// A function's block, with the places of its braces.
#[derive(Drop)]
pub struct Body {
    pub open: Pos,
    pub close: Pos,
    /// The function's objects by number, its parameters first.
    pub locals: Vec<Local>,
    /// How many objects are declared in the file before it.
    pub visible: usize,
    /// How many labels it has.
    pub labels: usize,
    /// Its calls by number.
    pub calls: Vec<CallSite>,
    pub items: Vec<Item>,
}

/// A function. One that is declared alone has no body.
#[derive(Drop)]
pub struct Function {
    pub name: Name,
    /// The type that it returns, none for void.
    pub returns: Option<IntType>,
    pub parameters: Vec<IntType>,
    pub body: Option<Body>,
}

/// What an object of the file holds when a run begins.
#[derive(Drop)]
pub enum Start {
    Scalar(i128),
    /// An array's first elements, at most its length of them; the others are 0.
    Array { length: usize, items: Vec<i128> },
}

/// An object of the file.
#[derive(Drop)]
pub struct FileObject {
    pub name: Name,
    pub int_type: IntType,
    pub start: Start,
}

/// A text: its objects and functions by number, each in order of declaration. Behind the objects that are declared in the file stand those that functions declare static.
#[derive(Drop)]
pub struct Unit {
    pub objects: Vec<FileObject>,
    pub functions: Vec<Function>,
}
