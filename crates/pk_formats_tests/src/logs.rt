// Logs, read back by the kit's reader of JSON.

use crate::texts::{PATHS, PATHS_REPORT, TABLE, TABLE_REPORT, shown};
use pk_findings::refusal;
use pk_sarif::sarif;
use serde_json::Value;
use std::alloc::Global;
use std::process::Abort;
use std::test::Fail;

fn text_at<'v>(log: &'v Value, path: &str) -> Result<&'v str, Fail> {
    let value = log.pointer(path).ok_or("the log has the member")?;
    Ok(value.as_str().ok_or("it is a text")?)
}

fn number_at(log: &Value, path: &str) -> Result<u64, Fail> {
    let value = log.pointer(path).ok_or("the log has the member")?;
    Ok(value.as_u64().ok_or("it is a number")?)
}

fn count_at(log: &Value, path: &str) -> Result<usize, Fail> {
    let value = log.pointer(path).ok_or("the log has the member")?;
    Ok(value.as_array().ok_or("it is a list")?.len())
}

// Each text of a row stands at its path.
fn expect_texts(rt: &impl Abort, log: &Value, rows: &[(&str, &str)]) -> Result<(), Fail> {
    for (path, text) in rows {
        assert!(rt; text_at(log, *path)? == *text, "{path}");
    }
    Ok(())
}

fn expect_numbers(rt: &impl Abort, log: &Value, rows: &[(&str, u64)]) -> Result<(), Fail> {
    for (path, number) in rows {
        assert!(rt; number_at(log, *path)? == *number, "{path}");
    }
    Ok(())
}

fn expect_counts(rt: &impl Abort, log: &Value, rows: &[(&str, usize)]) -> Result<(), Fail> {
    for (path, count) in rows {
        assert!(rt; count_at(log, *path)? == *count, "{path}");
    }
    Ok(())
}

const TABLE_TEXTS: [(&str, &str); 8] = [
    ("/version", "2.1.0"),
    ("/$schema", "https://json.schemastore.org/sarif-2.1.0.json"),
    ("/runs/0/tool/driver/name", "Pikos"),
    ("/runs/0/tool/driver/rules/0/id", "index"),
    ("/runs/0/results/0/ruleId", "index"),
    ("/runs/0/results/0/level", "warning"),
    (
        "/runs/0/results/0/locations/0/physicalLocation/artifactLocation/uri",
        "examples/table.c",
    ),
    (
        "/runs/0/results/0/codeFlows/0/threadFlows/0/locations/0/location/message/text",
        "main calls look_up",
    ),
];

const TABLE_NUMBERS: [(&str, u64); 9] = [
    (
        "/runs/0/results/0/locations/0/physicalLocation/region/startLine",
        10,
    ),
    (
        "/runs/0/results/0/locations/0/physicalLocation/region/startColumn",
        21,
    ),
    (
        "/runs/0/results/0/codeFlows/0/threadFlows/0/locations/0/location/physicalLocation/region/startLine",
        17,
    ),
    (
        "/runs/0/results/0/codeFlows/0/threadFlows/0/locations/0/location/physicalLocation/region/startColumn",
        12,
    ),
    (
        "/runs/0/results/0/codeFlows/0/threadFlows/0/locations/1/location/physicalLocation/region/startLine",
        10,
    ),
    (
        "/runs/0/results/0/codeFlows/0/threadFlows/0/locations/1/location/physicalLocation/region/startColumn",
        21,
    ),
    ("/runs/0/artifacts/0/properties/safe", 11),
    ("/runs/0/artifacts/0/properties/unknown", 1),
    ("/runs/0/artifacts/0/properties/unreachable", 0),
];

const TABLE_COUNTS: [(&str, usize); 6] = [
    ("/runs", 1),
    ("/runs/0/tool/driver/rules", 5),
    ("/runs/0/results", 1),
    ("/runs/0/results/0/codeFlows", 1),
    ("/runs/0/results/0/codeFlows/0/threadFlows/0/locations", 2),
    ("/runs/0/invocations/0/toolExecutionNotifications", 0),
];

fn table_log(alloc: Global) -> Result<Value, Fail> {
    let shown = [shown(alloc, b"examples/table.c", TABLE, TABLE_REPORT)?];
    let bytes = sarif(alloc, &shown, &[])?;
    Ok(Value::from_slice(alloc, &bytes)?)
}

#[test]
fn table_has_one_result(rt: HostRuntime) -> Result<(), Fail> {
    let log = table_log(rt.alloc())?;
    expect_texts(&rt, &log, &TABLE_TEXTS)?;
    expect_numbers(&rt, &log, &TABLE_NUMBERS)?;
    expect_counts(&rt, &log, &TABLE_COUNTS)
}

// A division on three call paths, two of them unknown, is one result with two code flows; so is an access by main.
const PATHS_COUNTS: [(&str, usize); 5] = [
    ("/runs/0/results", 2),
    ("/runs/0/results/0/codeFlows", 2),
    ("/runs/0/results/0/codeFlows/0/threadFlows/0/locations", 2),
    ("/runs/0/results/0/codeFlows/1/threadFlows/0/locations", 3),
    ("/runs/0/results/1/codeFlows/0/threadFlows/0/locations", 1),
];

const PATHS_TEXTS: [(&str, &str); 6] = [
    ("/runs/0/results/0/ruleId", "divzero"),
    (
        "/runs/0/results/0/message/text",
        "the divisor may be 0: it lies in [-4,9]",
    ),
    (
        "/runs/0/results/0/locations/0/physicalLocation/artifactLocation/uri",
        "lib.h",
    ),
    (
        "/runs/0/results/0/codeFlows/1/threadFlows/0/locations/1/location/message/text",
        "ratio calls ratio",
    ),
    ("/runs/0/results/1/ruleId", "index"),
    (
        "/runs/0/results/1/locations/0/physicalLocation/artifactLocation/uri",
        "src/odd%20name.c",
    ),
];

fn paths_log(alloc: Global) -> Result<Value, Fail> {
    let shown = [shown(alloc, b"src/odd name.c", PATHS, PATHS_REPORT)?];
    let bytes = sarif(alloc, &shown, &[])?;
    Ok(Value::from_slice(alloc, &bytes)?)
}

#[test]
fn two_paths_are_one_result(rt: HostRuntime) -> Result<(), Fail> {
    let log = paths_log(rt.alloc())?;
    expect_texts(&rt, &log, &PATHS_TEXTS)?;
    expect_counts(&rt, &log, &PATHS_COUNTS)
}

const REFUSED_TEXTS: [(&str, &str); 3] = [
    (
        "/runs/0/invocations/0/toolExecutionNotifications/0/message/text",
        "unsupported \"\u{1}\u{fffd}",
    ),
    (
        "/runs/0/invocations/0/toolExecutionNotifications/0/locations/0/physicalLocation/artifactLocation/uri",
        "a%22%FF.c",
    ),
    ("/runs/0/tool/driver/name", "Pikos"),
];

fn refused_log(alloc: Global) -> Result<Value, Fail> {
    let mut answer = Vec::from_slice(alloc, b"pikos: unsupported \"\x01")?;
    answer.push(255)?;
    match refusal(alloc, b"a\"\xff.c", b"x", &answer)? {
        Some(refused) => {
            let bytes = sarif(alloc, &[], &[refused])?;
            Ok(Value::from_slice(alloc, &bytes)?)
        }
        None => Err(Fail::from("the text was refused")),
    }
}

#[test]
fn names_are_text_whatever_their_bytes_are(rt: HostRuntime) -> Result<(), Fail> {
    let log = refused_log(rt.alloc())?;
    let is_successful = log
        .pointer("/runs/0/invocations/0/executionSuccessful")
        .and_then(Value::as_bool);
    assert!(rt; is_successful == Some(false));
    expect_texts(&rt, &log, &REFUSED_TEXTS)
}
