// The verdict on an operation over all its ways.

ghost use Rattle.std.specs.Prelude.{◌≡◌, count_by};
ghost use Rattle.pk_findings.specs.Words.{lesser, greater, joined, joined_to_safe, joined_to_unknown, verdict_of, is_safe, is_finding, is_unreachable, counts_of};

use crate::operations::Operation;
use pk_show::{Counts, Verdict};

fn lesser(a: i128, b: i128) -> i128
    ensures { result ≡ lesser a b }
{
    if b < a { b } else { a }
}

fn greater(a: i128, b: i128) -> i128
    ensures { result ≡ greater a b }
{
    if a < b { b } else { a }
}

fn joined_to_safe(verdict: Verdict) -> Verdict
    ensures { result ≡ joined_to_safe verdict }
{
    match verdict {
        Verdict::Safe => Verdict::Safe,
        Verdict::Unknown(lo, hi) => Verdict::Unknown(lo, hi),
        Verdict::Unreachable => Verdict::Safe,
    }
}

fn joined_to_unknown(lo: i128, hi: i128, verdict: Verdict) -> Verdict
    ensures { result ≡ joined_to_unknown lo hi verdict }
{
    match verdict {
        Verdict::Safe => Verdict::Unknown(lo, hi),
        Verdict::Unknown(low, high) => Verdict::Unknown(lesser(lo, low), greater(hi, high)),
        Verdict::Unreachable => Verdict::Unknown(lo, hi),
    }
}

// Of two ways: unknown where one is, else safe where one is.
fn joined(verdict: Verdict, other: Verdict) -> Verdict
    ensures { result ≡ joined verdict other }
{
    match verdict {
        Verdict::Safe => joined_to_safe(other),
        Verdict::Unknown(lo, hi) => joined_to_unknown(lo, hi, other),
        Verdict::Unreachable => other,
    }
}

/// The verdict over all ways of an operation: unknown where one is, with the least range around all that are, else safe
/// where one is.
pub fn verdict_of(operation: &Operation<'_>) -> Verdict
    ensures { result ≡ verdict_of operation.now }
{
    let mut verdict = Verdict::Unreachable;
    for k in 0..operation.ways.len() {
        let way = &operation.ways[k];
        verdict = joined(verdict, way.verdict);
    }
    verdict
}

fn is_safe(operation: &Operation<'_>) -> bool
    ensures { result ≡ is_safe (verdict_of operation.now) }
{
    matches!(verdict_of(operation), Verdict::Safe)
}

/// Whether an operation is unknown on one of its ways.
pub fn is_finding(operation: &Operation<'_>) -> bool
    ensures { result ≡ is_finding operation.now }
{
    matches!(verdict_of(operation), Verdict::Unknown(_, _))
}

fn is_unreachable(operation: &Operation<'_>) -> bool
    ensures { result ≡ is_unreachable (verdict_of operation.now) }
{
    matches!(verdict_of(operation), Verdict::Unreachable)
}

fn safe_count(operations: &[Operation<'_>]) -> usize
    ensures { result ≡ count_by (λ o. is_safe (verdict_of o)) operations.now }
{
    operations.iter().filter(|o| is_safe(o)).count()
}

fn unknown_count(operations: &[Operation<'_>]) -> usize
    ensures { result ≡ count_by is_finding operations.now }
{
    operations.iter().filter(|o| is_finding(o)).count()
}

fn unreachable_count(operations: &[Operation<'_>]) -> usize
    ensures { result ≡ count_by (λ o. is_unreachable (verdict_of o)) operations.now }
{
    operations.iter().filter(|o| is_unreachable(o)).count()
}

/// How many operations have each verdict.
#[tactic(auto, unfolding(crate::specs::Words::counts_of))]
pub fn counts_of(operations: &[Operation<'_>]) -> Counts
    ensures { result ≡ counts_of operations.now }
{
    let safe = safe_count(operations) as u64;
    let unknown = unknown_count(operations) as u64;
    let unreachable = unreachable_count(operations) as u64;
    Counts {
        safe,
        unknown,
        unreachable,
    }
}
