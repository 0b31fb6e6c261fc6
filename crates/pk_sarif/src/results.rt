// The results: one for each operation that is unknown.

ghost use Rattle.std.specs.Prelude.{◌≡◌, ◌++◌, IfOk, OnOk, map};
ghost use Rattle.pk_findings.specs.Words.{verdict_of};
ghost use Rattle.pk_findings.specs.Messages.{message as said_of};
ghost use Rattle.serde_json.specs.View.{view};
ghost use Rattle.pk_sarif.specs.Objects.{message, location, step};
ghost use Rattle.pk_sarif.specs.Texts.{listed, is_later};
ghost use Rattle.pk_sarif.specs.Results.{place, call_said, call_steps, steps, flow, flows_by, flows, result_with, results_by, results};

use crate::objects::{location, message, physical_location, step};
use crate::rules::{level, rule_name};
use crate::texts::write_item;
use pk_ctypes::Pos;
use pk_findings::{Operation, Text, Way, file_of, origin_at, verdict_of, write_message};
use pk_show::{Path, Verdict};
use serde_json::{Value, json, push};
use std::alloc::{AllocError, Global};

/// A place of a text, where it comes from.
pub(crate) fn place(alloc: Global, text: &Text<'_>, at: Pos) -> Result<Value, AllocError>
    ensures { IfOk result (λ v. view v ≡ place text.now at) }
{
    let origin = origin_at(text, at);
    let file = file_of(alloc, text, origin)?;
    physical_location(alloc, &file, origin.line, at.column)
}

fn call_said(alloc: Global, caller: &[u8], name: &[u8]) -> Result<Vec<u8>, AllocError>
    ensures { IfOk result (λ said. said.items ≡ call_said caller.now name.now) }
{
    let mut said = Vec::from_slice(alloc, caller)?;
    said.extend_from_slice(b" calls ")?;
    said.extend_from_slice(name)?;
    Ok(said)
}

fn call_step(
    alloc: Global,
    text: &Text<'_>,
    caller: &[u8],
    name: &[u8],
    at: Pos,
) -> Result<Value, AllocError>
    ensures { IfOk result (λ v. view v ≡ step (place text.now at) (call_said caller.now name.now)) }
{
    let said = call_said(alloc, caller, name)?;
    let place = place(alloc, text, at)?;
    step(alloc, place, &said)
}

// The calls of a path, the first one first.
fn call_steps(alloc: Global, text: &Text<'_>, path: &Path<'_>) -> Result<Vec<Value>, AllocError>
    ensures { IfOk result (λ vs. map view vs.items ≡ call_steps text.now path.now.entry path.now.calls) }
{
    let mut steps = Vec::new(alloc);
    let mut caller = path.entry;
    for k in 0..path.calls.len() {
        let call = &path.calls[k];
        let step = call_step(alloc, text, caller, call.name, call.at)?;
        push(&mut steps, step)?;
        caller = call.name;
    }
    Ok(steps)
}

fn said_of(
    alloc: Global,
    text: &Text<'_>,
    operation: &Operation<'_>,
    lo: i128,
    hi: i128,
) -> Result<Vec<u8>, AllocError>
    ensures { IfOk result (λ said. said.items ≡ said_of text.now operation.now lo hi) }
{
    let mut said = Vec::new(alloc);
    write_message(&mut said, text, operation, lo, hi)?;
    Ok(said)
}

fn last_step(
    alloc: Global,
    text: &Text<'_>,
    operation: &Operation<'_>,
    lo: i128,
    hi: i128,
) -> Result<Value, AllocError>
    ensures { IfOk result (λ v.
        view v ≡ step (place text.now operation.now.at) (said_of text.now operation.now lo hi)) }
{
    let said = said_of(alloc, text, operation, lo, hi)?;
    let place = place(alloc, text, operation.at)?;
    step(alloc, place, &said)
}

// The calls that lead to an operation, and the operation with the range that was found there.
fn steps(
    alloc: Global,
    text: &Text<'_>,
    operation: &Operation<'_>,
    way: &Way<'_>,
    lo: i128,
    hi: i128,
) -> Result<Vec<Value>, AllocError>
    ensures { IfOk result (λ vs. map view vs.items ≡ steps text.now operation.now way.now lo hi) }
{
    let mut steps = call_steps(alloc, text, &way.path)?;
    let last = last_step(alloc, text, operation, lo, hi)?;
    push(&mut steps, last)?;
    Ok(steps)
}

fn flow(alloc: Global, steps: Vec<Value>) -> Result<Value, AllocError>
    ensures { IfOk result (λ v. view v ≡ flow (map view steps.items)) }
{
    let steps = Value::Array(steps);
    json!(in alloc; {"threadFlows": [{"locations": steps}]})
}

fn add_flow(
    alloc: Global,
    list: &mut Vec<Value>,
    text: &Text<'_>,
    operation: &Operation<'_>,
    way: &Way<'_>,
) -> Result<(), AllocError>
    ensures { OnOk result (map view list.new.items
        ≡ map view list.old.items ++ flows_by text.now operation.now way.now way.now.verdict) }
{
    match way.verdict {
        Verdict::Safe => Ok(()),
        Verdict::Unknown(lo, hi) => {
            let steps = steps(alloc, text, operation, way, lo, hi)?;
            let flow = flow(alloc, steps)?;
            push(list, flow)
        }
        Verdict::Unreachable => Ok(()),
    }
}

// A code flow for each way of an operation that is unknown.
fn flows(
    alloc: Global,
    text: &Text<'_>,
    operation: &Operation<'_>,
) -> Result<Vec<Value>, AllocError>
    ensures { IfOk result (λ vs. map view vs.items ≡ flows text.now operation.now) }
{
    let mut flows = Vec::new(alloc);
    for k in 0..operation.ways.len() {
        add_flow(alloc, &mut flows, text, operation, &operation.ways[k])?;
    }
    Ok(flows)
}

fn place_of_result(
    alloc: Global,
    text: &Text<'_>,
    operation: &Operation<'_>,
) -> Result<Value, AllocError>
    ensures { IfOk result (λ v. view v ≡ location (place text.now operation.now.at)) }
{
    let place = place(alloc, text, operation.at)?;
    location(alloc, place)
}

fn message_of(
    alloc: Global,
    text: &Text<'_>,
    operation: &Operation<'_>,
    lo: i128,
    hi: i128,
) -> Result<Value, AllocError>
    ensures { IfOk result (λ v. view v ≡ message (said_of text.now operation.now lo hi)) }
{
    let said = said_of(alloc, text, operation, lo, hi)?;
    message(alloc, &said)
}

fn result_with(
    alloc: Global,
    text: &Text<'_>,
    operation: &Operation<'_>,
    lo: i128,
    hi: i128,
) -> Result<Value, AllocError>
    ensures { IfOk result (λ v. view v ≡ result_with text.now operation.now lo hi) }
{
    let flows = Value::Array(flows(alloc, text, operation)?);
    let location = place_of_result(alloc, text, operation)?;
    let message = message_of(alloc, text, operation, lo, hi)?;
    let level = level(alloc)?;
    let rule = rule_name(alloc, operation.fault)?;
    json!(in alloc; {
        "ruleId": rule,
        "level": level,
        "message": message,
        "locations": [location],
        "codeFlows": flows
    })
}

// Writes the result of an operation, if it is unknown, and tells whether a result stands there then.
fn write_result(
    alloc: Global,
    bytes: &mut Vec<u8>,
    later: bool,
    text: &Text<'_>,
    operation: &Operation<'_>,
) -> Result<bool, AllocError>
    ensures text { OnOk result (bytes.new.items
        ≡ bytes.old.items ++ listed later (results_by text.now operation.now (verdict_of operation.now))) }
    ensures later { IfOk result (λ b.
        b ≡ is_later later (results_by text.now operation.now (verdict_of operation.now))) }
{
    match verdict_of(operation) {
        Verdict::Safe => Ok(later),
        Verdict::Unknown(lo, hi) => {
            let result = result_with(alloc, text, operation, lo, hi)?;
            write_item(alloc, bytes, later, &result)?;
            Ok(true)
        }
        Verdict::Unreachable => Ok(later),
    }
}

/// Writes the results of operations, one for each that is unknown, in order, and tells whether a result stands there then.
pub(crate) fn write_results(
    alloc: Global,
    bytes: &mut Vec<u8>,
    later: bool,
    text: &Text<'_>,
    operations: &[Operation<'_>],
) -> Result<bool, AllocError>
    ensures text { OnOk result (bytes.new.items
        ≡ bytes.old.items ++ listed later (results text.now operations.now)) }
    ensures later { IfOk result (λ b. b ≡ is_later later (results text.now operations.now)) }
{
    let mut there = later;
    for k in 0..operations.len() {
        there = write_result(alloc, bytes, there, text, &operations[k])?;
    }
    Ok(there)
}
