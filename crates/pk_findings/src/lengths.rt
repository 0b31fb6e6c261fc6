// How long the arrays are whose elements are accessed.

ghost use Rattle.std.specs.Prelude.{◌≡◌, ◌++◌, ◌∷◌, [], IfOk, OnOk, map, nat_eq};
ghost use Rattle.pk_findings.specs.Lengths.{place_number, length_for, with_length, with_lengths};

use crate::operations::Operation;
use crate::shown::Shown;
use pk_ctypes::{Fault, Pos};
use std::alloc::{AllocError, Global};
use std::collections::HashMap;

/// The lengths of arrays, by the numbers of the places where they are accessed.
pub type Lengths = HashMap<u128, u64>;

/// The number of a place.
pub fn place_number(at: Pos) -> u128
    ensures { result ≡ place_number at }
{
    at.line as u128 * 18446744073709551616 + at.column as u128
}

fn length_for(lengths: &Lengths, at: Pos, fault: Fault) -> Option<u64>
    ensures { result ≡ length_for lengths.now at fault }
{
    match fault {
        Fault::Index => lengths.get(&place_number(at)).copied(),
        Fault::DivZero => None,
        Fault::Overflow => None,
        Fault::Shift => None,
        Fault::Assert => None,
    }
}

fn with_length<'t>(lengths: &Lengths, operation: Operation<'t>) -> Operation<'t>
    ensures { result ≡ with_length lengths.now operation.entry }
{
    let elements = length_for(lengths, operation.at, operation.fault);
    let Operation {
        at,
        fault,
        ways,
        ..
    } = operation;
    Operation {
        at,
        fault,
        elements,
        ways,
    }
}

fn add<'t>(list: &mut Vec<Operation<'t>>, operation: Operation<'t>) -> Result<(), AllocError>
    ensures { OnOk result (list.new.items ≡ list.old.items ++ operation.entry ∷ []) }
{
    match list.push(operation) {
        Ok(()) => Ok(()),
        Err(error) => Err(error.into()),
    }
}

fn with_each<'t>(
    alloc: Global,
    lengths: &Lengths,
    operations: Vec<Operation<'t>>,
) -> Result<Vec<Operation<'t>>, AllocError>
    ensures { IfOk result (λ told. told.items ≡ map (with_length lengths.now) operations.entry.items) }
{
    let mut told = Vec::new(alloc);
    for operation in operations {
        add(&mut told, with_length(lengths, operation))?;
    }
    Ok(told)
}

/// What a report says of a text, with the lengths of the arrays that are accessed.
pub fn with_lengths<'t>(
    alloc: Global,
    lengths: &Lengths,
    shown: Shown<'t>,
) -> Result<Shown<'t>, AllocError>
    ensures { IfOk result (λ told. told ≡ with_lengths lengths.now shown.entry) }
{
    let Shown {
        text,
        rows,
        operations,
    } = shown;
    let operations = with_each(alloc, lengths, operations)?;
    Ok(Shown {
        text,
        rows,
        operations,
    })
}
