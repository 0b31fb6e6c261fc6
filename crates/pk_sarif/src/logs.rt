// A log: one run of the tool over all texts.

ghost use Rattle.std.specs.Prelude.{◌≡◌, ◌++◌, IfOk, OnOk, false, map};
ghost use Rattle.serde_json.specs.Data.{array};
ghost use Rattle.serde_json.specs.View.{items_of, view};
ghost use Rattle.serde_json.specs.Written.{compact_text};
ghost use Rattle.pk_sarif.specs.Rules.{tool};
ghost use Rattle.pk_sarif.specs.Texts.{listed, is_later};
ghost use Rattle.pk_sarif.specs.Results.{results};
ghost use Rattle.pk_sarif.specs.Logs.{properties, artifact, refused_at, notification, invocation, all_results, log};

use crate::objects::{artifact_location, location, message};
use crate::results::{place, write_results};
use crate::rules::tool;
use crate::texts::{write, write_value};
use pk_ctypes::Pos;
use pk_findings::{Refused, Shown, Text, counts_of};
use pk_show::Counts;
use serde_json::{Value, json, push};
use std::alloc::{AllocError, Global};

fn properties(alloc: Global, counts: Counts) -> Result<Value, AllocError>
    ensures { IfOk result (λ v. view v ≡ properties counts) }
{
    json!(in alloc; {"safe": counts.safe, "unknown": counts.unknown, "unreachable": counts.unreachable})
}

// A text that was analysed, with how many of its operations have each verdict.
fn artifact(alloc: Global, shown: &Shown<'_>) -> Result<Value, AllocError>
    ensures { IfOk result (λ v. view v ≡ artifact shown.now) }
{
    let location = artifact_location(alloc, shown.text.name)?;
    let properties = properties(alloc, counts_of(&shown.operations))?;
    json!(in alloc; {"location": location, "properties": properties})
}

fn artifacts(alloc: Global, shown: &[Shown<'_>]) -> Result<Vec<Value>, AllocError>
    ensures { IfOk result (λ vs. map view vs.items ≡ map artifact shown.now) }
{
    let mut artifacts = Vec::new(alloc);
    for k in 0..shown.len() {
        let artifact = artifact(alloc, &shown[k])?;
        push(&mut artifacts, artifact)?;
    }
    Ok(artifacts)
}

fn refused_at(alloc: Global, text: &Text<'_>, at: Option<Pos>) -> Result<Value, AllocError>
    ensures { IfOk result (λ v. view v ≡ refused_at text.now at) }
{
    match at {
        Some(at) => place(alloc, text, at),
        None => {
            let file = artifact_location(alloc, text.name)?;
            json!(in alloc; {"artifactLocation": file})
        }
    }
}

// A text that was refused.
fn notification(alloc: Global, refused: &Refused<'_>) -> Result<Value, AllocError>
    ensures { IfOk result (λ v. view v ≡ notification refused.now) }
{
    let place = refused_at(alloc, &refused.text, refused.at)?;
    let location = location(alloc, place)?;
    let message = message(alloc, refused.said)?;
    json!(in alloc; {"level": "error", "message": message, "locations": [location]})
}

fn notifications(alloc: Global, refused: &[Refused<'_>]) -> Result<Vec<Value>, AllocError>
    ensures { IfOk result (λ vs. map view vs.items ≡ map notification refused.now) }
{
    let mut notifications = Vec::new(alloc);
    for k in 0..refused.len() {
        let notification = notification(alloc, &refused[k])?;
        push(&mut notifications, notification)?;
    }
    Ok(notifications)
}

// How the tool ran.
fn invocation(alloc: Global, refused: &[Refused<'_>]) -> Result<Value, AllocError>
    ensures { IfOk result (λ v. view v ≡ invocation refused.now) }
{
    let notifications = Value::Array(notifications(alloc, refused)?);
    let is_successful = refused.is_empty();
    json!(in alloc; {"executionSuccessful": is_successful, "toolExecutionNotifications": notifications})
}

// Writes the results of a text.
fn write_results_of(
    alloc: Global,
    bytes: &mut Vec<u8>,
    later: bool,
    shown: &Shown<'_>,
) -> Result<bool, AllocError>
    ensures text { OnOk result (bytes.new.items
        ≡ bytes.old.items ++ listed later (results shown.now.text shown.now.operations)) }
    ensures later { IfOk result (λ b. b ≡ is_later later (results shown.now.text shown.now.operations)) }
{
    write_results(alloc, bytes, later, &shown.text, &shown.operations)
}

// Writes the results of all texts.
fn write_all_results(
    alloc: Global,
    bytes: &mut Vec<u8>,
    shown: &[Shown<'_>],
) -> Result<(), AllocError>
    ensures { OnOk result (bytes.new.items ≡ bytes.old.items ++ listed false (all_results shown.now)) }
{
    let mut later = false;
    for k in 0..shown.len() {
        later = write_results_of(alloc, bytes, later, &shown[k])?;
    }
    Ok(())
}

fn write_artifacts(
    alloc: Global,
    bytes: &mut Vec<u8>,
    shown: &[Shown<'_>],
) -> Result<(), AllocError>
    ensures { OnOk result (
        bytes.new.items ≡ bytes.old.items ++ compact_text (array (items_of (map artifact shown.now)))) }
{
    let artifacts = Value::Array(artifacts(alloc, shown)?);
    write_value(alloc, bytes, &artifacts)
}

fn write_invocation(
    alloc: Global,
    bytes: &mut Vec<u8>,
    refused: &[Refused<'_>],
) -> Result<(), AllocError>
    ensures { OnOk result (bytes.new.items ≡ bytes.old.items ++ compact_text (invocation refused.now)) }
{
    let invocation = invocation(alloc, refused)?;
    write_value(alloc, bytes, &invocation)
}

fn write_tool(alloc: Global, bytes: &mut Vec<u8>) -> Result<(), AllocError>
    ensures { OnOk result (bytes.new.items ≡ bytes.old.items ++ compact_text tool) }
{
    let tool = tool(alloc)?;
    write_value(alloc, bytes, &tool)
}

/// The log of what was found in texts, and of texts that were refused.
pub fn sarif(
    alloc: Global,
    shown: &[Shown<'_>],
    refused: &[Refused<'_>],
) -> Result<Vec<u8>, AllocError>
    ensures { IfOk result (λ bytes. bytes.items ≡ compact_text (log shown.now refused.now)) }
{
    let mut bytes = Vec::from_slice(
        alloc,
        b"{\"$schema\":\"https://json.schemastore.org/sarif-2.1.0.json\",\"runs\":[{\"artifacts\":",
    )?;
    write_artifacts(alloc, &mut bytes, shown)?;
    write(&mut bytes, b",\"invocations\":[")?;
    write_invocation(alloc, &mut bytes, refused)?;
    write(&mut bytes, b"],\"results\":[")?;
    write_all_results(alloc, &mut bytes, shown)?;
    write(&mut bytes, b"],\"tool\":")?;
    write_tool(alloc, &mut bytes)?;
    write(&mut bytes, b"}],\"version\":\"2.1.0\"}")?;
    Ok(bytes)
}
