// Lines of accesses.

ghost use Rattle.std.specs.Prelude.{◌≡◌, ◌++◌, OnOk, codes, length, map};
ghost use Rattle.std.specs.Fmt.{signed_decimal};
ghost use Rattle.std.specs.List.{flat_map, zip};
ghost use Rattle.pk_graph.specs.Graphs.{path_view};
ghost use Rattle.pk_graph.specs.AccessViews.{operation_view, access_view, access_views};
ghost use Rattle.pk_report.specs.Reports.{verdict_text, place_and_kind, access_line};
ghost use Rattle.pk_graph.specs.Accesses.{fault_of};

use crate::paths::write_path;
use crate::texts::{write_kind, write_number, write_place, write_text};
use pk_ctypes::{Fault, Pos};
use pk_graph::{Access, Operation, Path, Verdict};
use std::alloc::{AllocError, Global};

#[tactic(auto, unfolding(pk_graph::specs::AccessViews::operation_view))]
fn fault_of(operation: &Operation) -> Fault
    ensures { result ≡ fault_of (operation_view operation.now) }
{
    match operation {
        Operation::Index(_, _) => Fault::Index,
        Operation::Divisor(_, _) => Fault::DivZero,
        Operation::Negation(_, _) => Fault::Overflow,
        Operation::Result(_, _, _, _) => Fault::Overflow,
        Operation::Shift(_, _, _, _) => Fault::Shift,
        Operation::Assertion(_) => Fault::Assert,
    }
}

fn write_unknown(alloc: Global, bytes: &mut Vec<u8>, lo: &i128, hi: &i128) -> Result<(), AllocError>
    ensures { OnOk result (bytes.new.items ≡ bytes.old.items
        ++ (codes "unknown [" ++ signed_decimal lo.now ++ codes "," ++ signed_decimal hi.now ++ codes "]")) }
{
    write_text(bytes, "unknown [")?;
    write_number(alloc, bytes, *lo)?;
    write_text(bytes, ",")?;
    write_number(alloc, bytes, *hi)?;
    write_text(bytes, "]")
}

fn write_verdict(alloc: Global, bytes: &mut Vec<u8>, verdict: &Verdict) -> Result<(), AllocError>
    ensures { OnOk result (bytes.new.items ≡ bytes.old.items ++ verdict_text verdict.now) }
{
    match verdict {
        Verdict::Safe => write_text(bytes, "safe"),
        Verdict::Unknown { lo, hi } => write_unknown(alloc, bytes, lo, hi),
        Verdict::Unreachable => write_text(bytes, "unreachable"),
    }
}

fn write_place_and_kind(
    alloc: Global,
    bytes: &mut Vec<u8>,
    at: Pos,
    fault: Fault,
) -> Result<(), AllocError>
    ensures { OnOk result (bytes.new.items ≡ bytes.old.items ++ place_and_kind at fault) }
{
    write_text(bytes, " ")?;
    write_place(alloc, bytes, at)?;
    write_text(bytes, " ")?;
    write_kind(alloc, bytes, fault)?;
    write_text(bytes, " ")
}

#[tactic(auto, unfolding(pk_graph::specs::AccessViews::access_view))]
fn write_access(
    alloc: Global,
    bytes: &mut Vec<u8>,
    paths: &[Path],
    access: &Access,
    verdict: &Verdict,
) -> Result<(), AllocError>
    ensures { OnOk result (bytes.new.items
        ≡ bytes.old.items ++ access_line (map path_view paths.now) (access_view access.now, verdict.now)) }
{
    write_text(bytes, "access ")?;
    write_path(alloc, bytes, paths, access.site.path)?;
    let fault = fault_of(&access.operation);
    write_place_and_kind(alloc, bytes, access.site.at, fault)?;
    write_verdict(alloc, bytes, verdict)?;
    write_text(bytes, "\n")
}

/// The lines of accesses, with their verdicts.
pub fn write_accesses(
    alloc: Global,
    bytes: &mut Vec<u8>,
    paths: &[Path],
    accesses: &[Access],
    verdicts: &[Verdict],
) -> Result<(), AllocError>
    requires { length accesses.now ≡ length verdicts.now }
    ensures { OnOk result (bytes.new.items ≡ bytes.old.items
        ++ flat_map (access_line (map path_view paths.now)) (zip (access_views accesses.now) verdicts.now)) }
{
    for k in 0..accesses.len() {
        write_access(alloc, bytes, paths, &accesses[k], &verdicts[k])?;
    }
    Ok(())
}
