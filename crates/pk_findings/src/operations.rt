// The operations of a report.

ghost use Rattle.std.specs.Prelude.{◌≡◌, ◌++◌, IfOk, OnOk};
ghost use Rattle.std.specs.Option.{option_map, option_to_list};
ghost use Rattle.pk_show.specs.Paths.{path_in};
ghost use Rattle.pk_findings.specs.Operations.{case_with, case_in, cases_in};

use pk_ctypes::{Fault, Pos};
use pk_show::{Access, Path, Row, Verdict, read_path};
use std::alloc::{AllocError, Global};
use std::marker::Model;

/// A call path to an operation, and what was found there.
#[derive(Drop)]
pub struct Way<'t> {
    pub path: Path<'t>,
    pub verdict: Verdict,
}

impl<'t> Model for Way<'t> {
    ghost use Rattle.pk_findings.specs.Operations.{WayOf};

    ghost Value = { WayOf };

    ghost view = { λ w. record { path = w.path; verdict = w.verdict } };
}

/// An operation that can fault: its place, its kind, and each way that leads to it. Of an index, how many elements the
/// array has, where that is known.
#[derive(Drop)]
pub struct Operation<'t> {
    pub at: Pos,
    pub fault: Fault,
    pub elements: Option<u64>,
    pub ways: Vec<Way<'t>>,
}

impl<'t> Model for Operation<'t> {
    ghost use Rattle.pk_findings.specs.Operations.{OperationOf};

    ghost Value = { OperationOf };

    ghost view = { λ o. record {
      at = o.at;
      fault = o.fault;
      elements = o.elements;
      ways = o.ways.items;
    } };
}

/// An operation on one of its call paths.
#[derive(Drop)]
pub(crate) struct Case<'t> {
    pub(crate) at: Pos,
    pub(crate) fault: Fault,
    pub(crate) way: Way<'t>,
}

impl<'t> Model for Case<'t> {
    ghost use Rattle.pk_findings.specs.Operations.{CaseOf};

    ghost Value = { CaseOf };

    ghost view = { λ c. record { at = c.at; fault = c.fault; way = c.way } };
}

fn access_case<'t>(alloc: Global, access: &Access<'t>) -> Result<Option<Case<'t>>, AllocError>
    ensures { IfOk result (λ c. c ≡ option_map (case_with access.now) (path_in access.now.path)) }
{
    match read_path(alloc, access.path)? {
        Some(path) => Ok(Some(Case {
            at: access.at,
            fault: access.fault,
            way: Way {
                path,
                verdict: access.verdict,
            },
        })),
        None => Ok(None),
    }
}

// The case that a row tells.
#[tactic(auto, unfolding(crate::specs::Operations::case_in))]
fn case_of<'t>(alloc: Global, row: &Row<'t>) -> Result<Option<Case<'t>>, AllocError>
    ensures { IfOk result (λ c. c ≡ case_in row.now) }
{
    match row {
        Row::Opening(_) => Ok(None),
        Row::Heading(_) => Ok(None),
        Row::NoRun => Ok(None),
        Row::Value(_) => Ok(None),
        Row::Bound(_) => Ok(None),
        Row::Access(access) => access_case(alloc, access),
        Row::Counts(_) => Ok(None),
    }
}

/// Puts an item behind a list, where there is one.
pub(crate) fn add_if<T: Drop>(list: &mut Vec<T>, item: Option<T>) -> Result<(), AllocError>
    ensures { OnOk result (list.new.items ≡ list.old.items ++ option_to_list item) }
{
    match item {
        Some(item) => match list.push(item) {
            Ok(()) => Ok(()),
            Err(error) => Err(error.into()),
        },
        None => Ok(()),
    }
}

/// The cases of a report.
pub(crate) fn cases<'t>(alloc: Global, rows: &[Row<'t>]) -> Result<Vec<Case<'t>>, AllocError>
    ensures { IfOk result (λ cases. cases.items ≡ cases_in rows.now) }
{
    let mut cases = Vec::new(alloc);
    for k in 0..rows.len() {
        let case = case_of(alloc, &rows[k])?;
        add_if(&mut cases, case)?;
    }
    Ok(cases)
}
