// The objects of a log.

ghost use Rattle.std.specs.Prelude.{◌≡◌, IfOk, string_bytes};
ghost use Rattle.std.specs.Str.Lossy.{utf8_lossy};
ghost use Rattle.percent_encoding.specs.Percent.{percent_encode};
ghost use Rattle.serde_json.specs.View.{view};
ghost use Rattle.pk_sarif.specs.Objects.{readable, message, artifact_location, count, region, physical_location, location, step};

use percent_encoding::{AsciiSet, NON_ALPHANUMERIC, ascii_set, percent_encode};
use serde_json::{Value, json};
use std::alloc::{AllocError, Global};

/// The bytes that may stand in no path of a URI: all but letters, digits, `-`, `.`, `_`, `~` and `/` (RFC 3986, 2.3).
pub const OUTSIDE_PATHS: AsciiSet = ascii_set!(
    NON_ALPHANUMERIC
        .remove(b'-')
        .remove(b'.')
        .remove(b'_')
        .remove(b'~')
        .remove(b'/')
);

/// Bytes as text.
fn readable(alloc: Global, bytes: &[u8]) -> Result<Value, AllocError>
    ensures { IfOk result (λ v. view v ≡ readable bytes.now) }
{
    let text = String::from_utf8_lossy(alloc, bytes)?;
    Ok(Value::String(text))
}

/// A message.
pub(crate) fn message(alloc: Global, bytes: &[u8]) -> Result<Value, AllocError>
    ensures { IfOk result (λ v. view v ≡ message bytes.now) }
{
    let text = readable(alloc, bytes)?;
    json!(in alloc; {"text": text})
}

fn uri(alloc: Global, file: &[u8]) -> Result<String, AllocError>
    ensures { IfOk result (λ s. string_bytes s ≡ percent_encode OUTSIDE_PATHS file.now) }
{
    let mut uri = String::new(alloc);
    percent_encode(file, OUTSIDE_PATHS).append_to(&mut uri)?;
    Ok(uri)
}

/// Where a file is.
pub(crate) fn artifact_location(alloc: Global, file: &[u8]) -> Result<Value, AllocError>
    ensures { IfOk result (λ v. view v ≡ artifact_location file.now) }
{
    let uri = uri(alloc, file)?;
    json!(in alloc; {"uri": uri})
}

fn count(n: u64) -> Value
    ensures { view result ≡ count n }
{
    Value::from(n.max(1))
}

fn region(alloc: Global, line: u64, column: u64) -> Result<Value, AllocError>
    ensures { IfOk result (λ v. view v ≡ region line column) }
{
    let line = count(line);
    let column = count(column);
    json!(in alloc; {"startLine": line, "startColumn": column})
}

/// A place in a file.
pub(crate) fn physical_location(
    alloc: Global,
    file: &[u8],
    line: u64,
    column: u64,
) -> Result<Value, AllocError>
    ensures { IfOk result (λ v. view v ≡ physical_location file.now line column) }
{
    let file = artifact_location(alloc, file)?;
    let region = region(alloc, line, column)?;
    json!(in alloc; {"artifactLocation": file, "region": region})
}

/// A place of a result.
pub(crate) fn location(alloc: Global, place: Value) -> Result<Value, AllocError>
    ensures { IfOk result (λ v. view v ≡ location (view place)) }
{
    json!(in alloc; {"physicalLocation": place})
}

/// A place on a way, with what happens there.
pub(crate) fn step(alloc: Global, place: Value, said: &[u8]) -> Result<Value, AllocError>
    ensures { IfOk result (λ v. view v ≡ step (view place) said.now) }
{
    let said = message(alloc, said)?;
    json!(in alloc; {"location": {"physicalLocation": place, "message": said}})
}
