// Words, and what they give. Each list is parted by blanks, two of which stand round an empty word.

use pk_command::{Command, WordsError, read_words};
use std::alloc::Global;
use std::test::Fail;

fn list_of(alloc: Global, words: &str) -> Result<Vec<String>, Fail> {
    let mut list = Vec::new(alloc);
    for word in words.split(' ') {
        list.push(String::from_str(alloc, word)?)?;
    }
    Ok(list)
}

fn answer(alloc: Global, words: &str) -> Result<Result<Command, WordsError>, Fail> {
    let list = list_of(alloc, words)?;
    Ok(read_words(alloc, &list))
}

#[derive(Drop)]
struct Wanted {
    workers: u32,
    narrow: u32,
    oct: usize,
    max_runs: u64,
    points: bool,
}

fn asks_for_run(alloc: Global, words: &str, wanted: &Wanted, entry: &str) -> Result<bool, Fail> {
    match answer(alloc, words)? {
        Ok(Command::Run(options)) => Ok(
            options.workers == wanted.workers
                && options.narrow == wanted.narrow
                && options.oct == wanted.oct
                && options.max_runs == wanted.max_runs
                && options.points == wanted.points
                && options.entry.as_str() == entry,
        ),
        _ => Ok(false),
    }
}

fn asks_for_order(alloc: Global, words: &str, entry: &str, peak: bool) -> Result<bool, Fail> {
    match answer(alloc, words)? {
        Ok(Command::Order(options)) => {
            Ok(options.entry.as_str() == entry && options.peak == peak)
        }
        _ => Ok(false),
    }
}

fn is_usage(answer: Result<Command, WordsError>) -> bool {
    match answer {
        Err(error) => error == WordsError::Usage,
        Ok(_) => false,
    }
}

const RUNS: [(&str, u32, u32, usize, u64, &str, bool); 22] = [
    ("run", 4, 2, 16, 1000000, "main", false),
    ("run --", 4, 2, 16, 1000000, "main", false),
    ("run --points", 4, 2, 16, 1000000, "main", true),
    ("run --workers 1", 1, 2, 16, 1000000, "main", false),
    ("run --workers 64", 64, 2, 16, 1000000, "main", false),
    ("run --workers=16", 16, 2, 16, 1000000, "main", false),
    ("run --workers +16", 16, 2, 16, 1000000, "main", false),
    ("run --workers=+16", 16, 2, 16, 1000000, "main", false),
    ("run --workers 007", 7, 2, 16, 1000000, "main", false),
    ("run --narrow 0", 4, 0, 16, 1000000, "main", false),
    ("run --narrow 8", 4, 8, 16, 1000000, "main", false),
    ("run --narrow=-0", 4, 0, 16, 1000000, "main", false),
    ("run --oct 0", 4, 2, 0, 1000000, "main", false),
    ("run --oct 64", 4, 2, 64, 1000000, "main", false),
    ("run --oct=-0", 4, 2, 0, 1000000, "main", false),
    ("run --max-runs 1", 4, 2, 16, 1, "main", false),
    (
        "run --max-runs 549755813888",
        4,
        2,
        16,
        549755813888,
        "main",
        false,
    ),
    ("run --entry f", 4, 2, 16, 1000000, "f", false),
    ("run --entry=", 4, 2, 16, 1000000, "", false),
    ("run --entry=-x", 4, 2, 16, 1000000, "-x", false),
    (
        "run --points --max-runs=5 --workers 2",
        2,
        2,
        16,
        5,
        "main",
        true,
    ),
    (
        "run --entry f --oct 3 --narrow 1 --workers 2 --points --max-runs 5 --",
        2,
        1,
        3,
        5,
        "f",
        true,
    ),
];

#[test]
fn these_words_ask_for_a_run(rt: HostRuntime) -> Result<(), Fail> {
    for (words, workers, narrow, oct, max_runs, entry, points) in &RUNS {
        let wanted = Wanted {
            workers: *workers,
            narrow: *narrow,
            oct: *oct,
            max_runs: *max_runs,
            points: *points,
        };
        assert!(rt;
            asks_for_run(rt.alloc(), *words, &wanted, *entry)?,
            "{words}"
        );
    }
    Ok(())
}

// Points, what is let go of, and packs.
const FLAGS: [(&str, bool, bool, bool); 9] = [
    ("run", false, false, false),
    ("run --points", true, false, false),
    ("run --lean", false, true, false),
    ("run --packs", false, false, true),
    ("run --packs --", false, false, true),
    ("run --packs --points", true, false, true),
    ("run --lean --packs --oct 2", false, true, true),
    ("run --packs --workers 1 --lean --points", true, true, true),
    ("run --entry=--packs", false, false, false),
];

fn has_flags(
    alloc: Global,
    words: &str,
    points: bool,
    lean: bool,
    packs: bool,
) -> Result<bool, Fail> {
    match answer(alloc, words)? {
        Ok(Command::Run(options)) => {
            Ok(options.points == points && options.lean == lean && options.packs == packs)
        }
        _ => Ok(false),
    }
}

#[test]
fn these_words_have_flags(rt: HostRuntime) -> Result<(), Fail> {
    for (words, points, lean, packs) in &FLAGS {
        assert!(rt;
            has_flags(rt.alloc(), *words, *points, *lean, *packs)?,
            "{words}"
        );
    }
    Ok(())
}

const ORDERS: [(&str, &str, bool); 19] = [
    ("order", "main", false),
    ("order --", "main", false),
    ("order --entry f", "f", false),
    ("order --entry=f", "f", false),
    ("order --entry f --", "f", false),
    ("order --entry order", "order", false),
    ("order --entry entrée", "entrée", false),
    ("order --entry a=b", "a=b", false),
    ("order --entry=a=b", "a=b", false),
    ("order --entry=", "", false),
    ("order --entry ", "", false),
    ("order --entry -", "-", false),
    ("order --entry=-x", "-x", false),
    ("order --entry=--", "--", false),
    ("order --entry=--entry", "--entry", false),
    ("order --entry=--peak", "--peak", false),
    ("order --peak", "main", true),
    ("order --peak --entry f", "f", true),
    ("order --entry f --peak --", "f", true),
];

#[test]
fn these_words_ask_for_the_order(rt: HostRuntime) -> Result<(), Fail> {
    for (words, entry, peak) in &ORDERS {
        assert!(rt;
            asks_for_order(rt.alloc(), *words, *entry, *peak)?,
            "{words}"
        );
    }
    Ok(())
}

const GENS: [(&str, u32, u32, u32); 7] = [
    ("gen --seed 0 --size 1", 0, 1, 4),
    ("gen --seed 2147483647 --size 1000", 2147483647, 1000, 4),
    ("gen --size=1 --seed=2 --workers 64", 2, 1, 64),
    ("gen --workers 1 --size 7 --seed 9 --", 9, 7, 1),
    ("gen --seed +3 --size +4", 3, 4, 4),
    ("gen --seed=-0 --size 1", 0, 1, 4),
    ("gen --seed 0002147483647 --size 0001", 2147483647, 1, 4),
];

fn asks_for_gen(
    alloc: Global,
    words: &str,
    seed: u32,
    size: u32,
    workers: u32,
) -> Result<bool, Fail> {
    match answer(alloc, words)? {
        Ok(Command::Gen(options)) => {
            Ok(options.seed == seed && options.size == size && options.workers == workers)
        }
        _ => Ok(false),
    }
}

#[test]
fn these_words_ask_for_a_program(rt: HostRuntime) -> Result<(), Fail> {
    for (words, seed, size, workers) in &GENS {
        assert!(rt;
            asks_for_gen(rt.alloc(), *words, *seed, *size, *workers)?,
            "{words}"
        );
    }
    Ok(())
}

const USAGES: [&str; 134] = [
    "",
    "Run",
    "ru",
    "runs",
    "run run",
    "run order",
    "run  ",
    "-- run",
    "run -- run",
    "run -- --",
    "run -",
    "run --workers",
    "run --workers 0",
    "run --workers 65",
    "run --workers ",
    "run --workers=",
    "run --workers -4",
    "run --workers=-4",
    "run --workers=++4",
    "run --workers=-+4",
    "run --workers -",
    "run --workers 4.0",
    "run --workers 0x4",
    "run --workers four",
    "run --workers 4 5",
    "run --workers 4 --workers 4",
    "run --workers --points",
    "run --workers -- 4",
    "run --worker 4",
    "run --WORKERS 4",
    "run -workers 4",
    "run --max-runs 0",
    "run --max-runs 549755813889",
    "run --max-runs 18446744073709551617",
    "run --max-runs=-0",
    "run --max 5",
    "run --points --points",
    "run --points=true",
    "run --points true",
    "--points run",
    "run -h",
    "run --help",
    "--help",
    "help",
    "run help",
    "--version",
    "run -V",
    "run --order",
    "Order",
    "ord",
    "orders",
    "order order",
    "order run",
    "order main",
    "order ",
    "order -",
    "order -- --",
    "order -- main",
    "-- order",
    "order --entry",
    "order --entry --",
    "order --entry -- f",
    "order --entry -x",
    "order --entry --x",
    "order --entry a b",
    "order --entry a --entry b",
    "order --entry a --entry a",
    "order --entry=a --entry=a",
    "order --ent a",
    "order --ENTRY a",
    "order -entry a",
    "order -e a",
    "--entry a order",
    "order --points",
    "order --peak --peak",
    "order --peak=true",
    "order --peak true",
    "order --pea",
    "run --peak",
    "order --workers 2",
    "order --max-runs 5",
    "order --help",
    "order -h",
    "order --version",
    "help order",
    "run --narrow",
    "run --narrow 9",
    "run --narrow -1",
    "run --narrow=-1",
    "run --narrow -0",
    "run --narrow 1 --narrow 1",
    "run --oct 65",
    "run --oct=-1",
    "run --oct",
    "run --oct 1 --oct 1",
    "run --entry",
    "run --entry a --entry b",
    "run --entry -x",
    "run --packs --packs",
    "run --packs=true",
    "run --packs true",
    "run --packs 2",
    "run --pack",
    "order --packs",
    "cert --packs",
    "check --packs",
    "gen --seed 1 --size 1 --packs",
    "run --seed 1",
    "run --size 1",
    "order --narrow 1",
    "order --oct 1",
    "gen",
    "Gen",
    "gens",
    "gen --seed 1",
    "gen --size 1",
    "gen --seed 1 --size 0",
    "gen --seed 1 --size 1001",
    "gen --seed 2147483648 --size 1",
    "gen --seed=-1 --size 1",
    "gen --seed 1 --size 1 --seed 1",
    "gen --seed 1 --size 1 --workers 0",
    "gen --seed 1 --size 1 --workers 65",
    "gen --seed 1 --size",
    "gen --seed --size 1",
    "gen --seed 1 --size 1 --narrow 1",
    "gen --seed 1 --size 1 --oct 1",
    "gen --seed 1 --size 1 --max-runs 5",
    "gen --seed 1 --size 1 --entry f",
    "gen --seed 1 --size 1 --points",
    "gen --seed 1 --size 1 run",
    "gen 1 1",
    "gen --help",
    "help gen",
];

#[test]
fn other_words_are_usage(rt: HostRuntime) -> Result<(), Fail> {
    assert!(rt; is_usage(read_words(rt.alloc(), &[])));
    for words in &USAGES {
        assert!(rt; is_usage(answer(rt.alloc(), *words)?), "{words}");
    }
    Ok(())
}
