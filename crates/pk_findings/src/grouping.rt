// Cases are gathered to operations.

ghost use Rattle.std.specs.Prelude.{◌≡◌, ◌==◌, ◌++◌, ◌∷◌, [], IfOk, OnOk, true};
ghost use Rattle.std.specs.List.{list_all};
ghost use Rattle.pk_findings.specs.Texts.{is_small};
ghost use Rattle.pk_findings.specs.Operations.{kind_number, AreOperations};
ghost use Rattle.pk_findings.specs.Grouping.{order_of, case_order, operation_order, single, gathered, added, gathered_of, all_of};

use crate::operations::{Case, Operation, add_if};
use pk_ctypes::{Fault, Pos};
use std::alloc::{AllocError, Global};

fn kind_number(fault: Fault) -> u64
    ensures { result ≡ kind_number fault }
{
    match fault {
        Fault::Index => 0,
        Fault::DivZero => 1,
        Fault::Overflow => 2,
        Fault::Shift => 3,
        Fault::Assert => 4,
    }
}

/// The greatest line and column by which cases are put in order.
const MOST: u64 = 1073741823;

// By line, then by column, then by kind.
#[tactic(auto, unfolding(crate::specs::Grouping::order_of))]
fn order_of(at: Pos, fault: Fault) -> u64
    ensures { result ≡ order_of at fault }
{
    (at.line.min(MOST) * 1073741824 + at.column.min(MOST)) * 8 + kind_number(fault)
}

fn is_of(operation: &Operation<'_>, case: &Case<'_>) -> bool
    ensures { result ≡ (operation_order operation.now == case_order case.now) }
{
    order_of(operation.at, operation.fault) == order_of(case.at, case.fault)
}

fn add<T: Drop>(list: &mut Vec<T>, item: T) -> Result<(), AllocError>
    ensures { OnOk result (list.new.items ≡ list.old.items ++ item ∷ []) }
{
    match list.push(item) {
        Ok(()) => Ok(()),
        Err(error) => Err(error.into()),
    }
}

fn single<'t>(alloc: Global, case: Case<'t>) -> Result<Operation<'t>, AllocError>
    ensures { IfOk result (λ o. o ≡ single case.entry) }
{
    let Case { at, fault, way } = case;
    let mut ways = Vec::new(alloc);
    add(&mut ways, way)?;
    Ok(Operation {
        at,
        fault,
        elements: None,
        ways,
    })
}

// An open operation has its next way, or is whole.
fn add_case<'t>(
    alloc: Global,
    whole: &mut Vec<Operation<'t>>,
    latest: Option<Operation<'t>>,
    case: Case<'t>,
) -> Result<Operation<'t>, AllocError>
    ensures { IfOk result (λ o. gathered whole.new.items (Some o) ≡ added whole.old.items latest.entry case.entry) }
{
    let Some(mut operation) = latest else {
        return single(alloc, case);
    };
    if is_of(&operation, &case) {
        let Case { way, .. } = case;
        add(&mut operation.ways, way)?;
        return Ok(operation);
    }
    add(whole, operation)?;
    single(alloc, case)
}

// The operations of cases that are in order.
fn gather<'t>(alloc: Global, cases: Vec<Case<'t>>) -> Result<Vec<Operation<'t>>, AllocError>
    ensures { IfOk result (λ operations. operations.items ≡ all_of (gathered_of cases.entry.items)) }
{
    let mut whole = Vec::new(alloc);
    let mut latest = None;
    for case in cases {
        latest = Some(add_case(alloc, &mut whole, latest, case)?);
    }
    add_if(&mut whole, latest)?;
    Ok(whole)
}

/// The operations of cases.
pub(crate) fn operations<'t>(
    alloc: Global,
    mut cases: Vec<Case<'t>>,
) -> Result<Vec<Operation<'t>>, AllocError>
    requires { list_all (λ c. is_small c.at) cases.items ≡ true }
    ensures { IfOk result (λ operations. AreOperations cases.entry.items operations.items) }
{
    cases.sort_by_key(|case| order_of(case.at, case.fault))?;
    let operations = gather(alloc, cases)?;
    Ok(operations)
}
