// Stores of a graph.

ghost use Rattle.std.specs.Prelude.{◌≡◌, ◌<◌, IfOk, length, map, slice_set};
ghost use Rattle.pk_graph.specs.Stores.{numbers_of};

use std::alloc::{AllocError, Global};
use std::marker::Model;

/// The numbers of each variable, by its number: one of a scalar, and as many as it has elements of an array. Contracts see the list of these lists.
#[derive(Drop)]
pub struct Store {
    numbers: Vec<Vec<i128>>,
}

impl Model for Store {
    ghost use Rattle.std.specs.Prelude.{List, ℤ, map};

    ghost Value = { List (List ℤ) };

    ghost view = { λ s. map (λ v. v.items) s.numbers.items };
}

impl Store {
    pub fn new(numbers: Vec<Vec<i128>>) -> Store
        ensures { result ≡ map (λ v. v.items) numbers.items }
    {
        Store { numbers }
    }

    /// The numbers of a variable.
    pub fn numbers(&self, variable: usize) -> &[i128]
        requires { variable < length self.now }
        ensures { result.now ≡ numbers_of self.now variable }
    {
        &self.numbers[variable]
    }

    pub fn copy(&self, alloc: Global) -> Result<Store, AllocError>
        ensures { IfOk result (λ s. s ≡ self.now) }
    {
        Ok(Store {
            numbers: copies(alloc, &self.numbers)?,
        })
    }

    /// The same store, but for a variable's numbers.
    pub(crate) fn with(
        &self,
        alloc: Global,
        variable: usize,
        numbers: Vec<i128>,
    ) -> Result<Store, AllocError>
        requires { variable < length self.now }
        ensures { IfOk result (λ s. s ≡ slice_set self.now variable numbers.items) }
    {
        let mut copies = copies(alloc, &self.numbers)?;
        copies[variable] = numbers;
        Ok(Store { numbers: copies })
    }
}

fn copies(alloc: Global, rows: &[Vec<i128>]) -> Result<Vec<Vec<i128>>, AllocError>
    ensures { IfOk result (λ copies. map (λ v. v.items) copies.items ≡ map (λ v. v.items) rows.now) }
{
    let mut copies = Vec::with_capacity(alloc, rows.len())?;
    for k in 0..rows.len() {
        copies.push(Vec::from_slice(alloc, &rows[k])?)?;
    }
    Ok(copies)
}
