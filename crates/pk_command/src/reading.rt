// The words that the definition takes, and what they give.

ghost use Rattle.std.specs.Prelude.{◌≡◌, [], Some, IfOk, OnOk, false, codes, map, string_bytes};
ghost use Rattle.clap.specs.Words.{fault_of, found_of, rows_of, subcommand_rows_of};
ghost use Rattle.pk_command.specs.CommandLine.{is_taken, pikos_app};
ghost use Rattle.pk_command.specs.Given.{AsksFor, IsInRange, IsGen, cert_options as cert_options_of, given_by, is_set, number_given, number_of, order_options as order_options_of, run_options as run_options_of, text_of};
ghost use Rattle.pk_command.specs.Found.{AreNumbersFound, IsFlagFound, IsGenFound, IsNumberFound, IsRequiredFound, IsRunFound};

use crate::asked::{CertOptions, Command, GenOptions, OrderOptions, RunOptions, WordsError};
use crate::definition::command_line;
use clap::ArgMatches;
use clap::error::ErrorKind;
use pk_ctypes::Name;
use std::alloc::{AllocError, Global};

// What clap finds in the words.
fn matches_in<'a>(alloc: Global, words: &'a [String]) -> Result<ArgMatches<'a>, WordsError>
    ensures taken { OnOk result (fault_of pikos_app (map string_bytes words.entry.now) ≡ []) }
    ensures given { IfOk result (λ m. subcommand_rows_of m ≡ given_by (map string_bytes words.entry.now)) }
    ensures usage { result ≡ Err WordsError.Usage → is_taken (map string_bytes words.entry.now) ≡ false }
{
    match command_line(alloc)?.try_get_matches_from(words) {
        Ok(matches) => Ok(matches),
        Err(error) => {
            if error.kind() == ErrorKind::OutOfMemory {
                Err(WordsError::Memory)
            } else {
                Err(WordsError::Usage)
            }
        }
    }
}

fn number(found: &ArgMatches<'_>, name: &str, default: u64) -> u64
    requires { IsNumberFound name.now 0 549755813888 (rows_of (found_of found.now)) }
    ensures { result ≡ number_of name.now default (rows_of (found_of found.now)) }
{
    match found.get_one(name) {
        Some(number) => number,
        None => default,
    }
}

fn required(found: &ArgMatches<'_>, name: &str) -> u64
    requires { IsRequiredFound name.now 0 549755813888 (rows_of (found_of found.now)) }
    ensures { number_given name.now (rows_of (found_of found.now)) ≡ Some result }
{
    match found.get_one(name) {
        Some(number) => number,
        None => unreachable!(),
    }
}

fn workers(found: &ArgMatches<'_>) -> u32
    requires { IsNumberFound (codes "workers") 1 64 (rows_of (found_of found.now)) }
    ensures { result ≡ number_of (codes "workers") 4 (rows_of (found_of found.now)) }
{
    number(found, "workers", 4) as u32
}

fn is_given(found: &ArgMatches<'_>, name: &str) -> bool
    requires { IsFlagFound name.now (rows_of (found_of found.now)) }
    ensures { result ≡ is_set name.now (rows_of (found_of found.now)) }
{
    found.get_flag(name)
}

fn text<'a>(found: &ArgMatches<'a>, name: &str, default: &'a str) -> &'a str
    ensures { result.now ≡ text_of name.now default.now (rows_of (found_of found.now)) }
{
    match found.get_str(name) {
        Some(text) => text,
        None => default,
    }
}

fn entry(alloc: Global, found: &ArgMatches<'_>) -> Result<Name, AllocError>
    ensures { IfOk result (λ name. name ≡ text_of (codes "entry") (codes "main") (rows_of (found_of found.now))) }
{
    Name::new(alloc, text(found, "entry", "main").as_bytes())
}

fn cert_options(alloc: Global, found: &ArgMatches<'_>) -> Result<CertOptions, AllocError>
    requires { AreNumbersFound (rows_of (found_of found.now)) }
    ensures { IfOk result (λ options. options ≡ cert_options_of (rows_of (found_of found.now))) }
{
    Ok(CertOptions {
        workers: workers(found),
        delay: number(found, "delay", 0) as u32,
        narrow: number(found, "narrow", 2) as u32,
        oct: number(found, "oct", 16) as usize,
        max_runs: number(found, "max-runs", 1000000),
        entry: entry(alloc, found)?,
    })
}

// `run` has the options of `cert`, and two more.
fn run_options(alloc: Global, found: &ArgMatches<'_>) -> Result<RunOptions, AllocError>
    requires { IsRunFound (rows_of (found_of found.now)) }
    ensures { IfOk result (λ options. options ≡ run_options_of (rows_of (found_of found.now))) }
{
    let CertOptions {
        workers,
        delay,
        narrow,
        oct,
        max_runs,
        entry,
    } = cert_options(alloc, found)?;
    Ok(RunOptions {
        workers,
        delay,
        narrow,
        oct,
        max_runs,
        entry,
        points: is_given(found, "points"),
        lean: is_given(found, "lean"),
        packs: is_given(found, "packs"),
    })
}

fn order_options(alloc: Global, found: &ArgMatches<'_>) -> Result<OrderOptions, AllocError>
    requires { IsFlagFound (codes "peak") (rows_of (found_of found.now)) }
    ensures { IfOk result (λ options. options ≡ order_options_of (rows_of (found_of found.now))) }
{
    Ok(OrderOptions {
        entry: entry(alloc, found)?,
        peak: is_given(found, "peak"),
    })
}

fn gen_options(found: &ArgMatches<'_>) -> GenOptions
    requires { IsGenFound (rows_of (found_of found.now)) }
    ensures { IsGen (rows_of (found_of found.now)) result }
{
    GenOptions {
        seed: required(found, "seed") as u32,
        size: required(found, "size") as u32,
        workers: workers(found),
    }
}

/// Reads the words after the program's name. Without memory for it, words that aren't taken too may give `Memory`.
pub fn read_words(alloc: Global, words: &[String]) -> Result<Command, WordsError>
    // Only words that are taken give a command, the one that they ask for.
    ensures command { IfOk result (AsksFor (map string_bytes words.now)) }
    ensures range { IfOk result IsInRange }

    // Usage is told only of words that aren't taken.
    ensures usage { result ≡ Err WordsError.Usage → is_taken (map string_bytes words.now) ≡ false }
{
    let matches = matches_in(alloc, words)?;
    match matches.subcommand_matches("run") {
        Some(found) => Ok(Command::Run(run_options(alloc, found)?)),
        None => match matches.subcommand_matches("order") {
            Some(found) => Ok(Command::Order(order_options(alloc, found)?)),
            None => match matches.subcommand_matches("gen") {
                Some(found) => Ok(Command::Gen(gen_options(found))),
                None => match matches.subcommand_matches("cert") {
                    Some(found) => Ok(Command::Cert(cert_options(alloc, found)?)),
                    None => match matches.subcommand_matches("check") {
                        Some(_) => Ok(Command::Check),
                        None => unreachable!(),
                    },
                },
            },
        },
    }
}
