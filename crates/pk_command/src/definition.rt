// The command line, as clap takes it.

ghost use Rattle.std.specs.Prelude.{◌≡◌, IfOk, Ok, codes, false};
ghost use Rattle.clap.specs.Words.{App, Rule, app_of, rule_of, with_rule, with_subcommand};
ghost use Rattle.clap.specs.declared.Command.TheViews.{out-Command as fields_of};
ghost use Rattle.pk_command.specs.CommandLine.{IsCommand, IsOption, number_option, required_number, text_option, flag, command};
ghost use Rattle.pk_command.specs.CommandLine.{run_number_options, run_app, order_app, gen_app, cert_app, check_app, program_app, pikos_app};

use clap::{Arg, ArgAction, Command};
use std::alloc::{AllocError, Global};

fn workers<'a>(alloc: Global) -> Arg<'a>
    ensures rule { rule_of result ≡ number_option (codes "workers") 1 64 }
    ensures local { result.global ≡ false }
{
    Arg::new(alloc, "workers")
        .long("workers")
        .action(ArgAction::Set)
        .value_parser(clap::value_parser!(i64).range(1..=64))
}

fn delay<'a>(alloc: Global) -> Arg<'a>
    ensures rule { rule_of result ≡ number_option (codes "delay") 0 16 }
    ensures local { result.global ≡ false }
{
    Arg::new(alloc, "delay")
        .long("delay")
        .action(ArgAction::Set)
        .value_parser(clap::value_parser!(i64).range(0..=16))
}

fn narrow<'a>(alloc: Global) -> Arg<'a>
    ensures rule { rule_of result ≡ number_option (codes "narrow") 0 8 }
    ensures local { result.global ≡ false }
{
    Arg::new(alloc, "narrow")
        .long("narrow")
        .action(ArgAction::Set)
        .value_parser(clap::value_parser!(i64).range(0..=8))
}

fn oct<'a>(alloc: Global) -> Arg<'a>
    ensures rule { rule_of result ≡ number_option (codes "oct") 0 64 }
    ensures local { result.global ≡ false }
{
    Arg::new(alloc, "oct")
        .long("oct")
        .action(ArgAction::Set)
        .value_parser(clap::value_parser!(i64).range(0..=64))
}

fn max_runs<'a>(alloc: Global) -> Arg<'a>
    ensures rule { rule_of result ≡ number_option (codes "max-runs") 1 549755813888 }
    ensures local { result.global ≡ false }
{
    Arg::new(alloc, "max-runs")
        .long("max-runs")
        .action(ArgAction::Set)
        .value_parser(clap::value_parser!(i64).range(1..=549755813888))
}

fn entry<'a>(alloc: Global) -> Arg<'a>
    ensures rule { rule_of result ≡ text_option (codes "entry") }
    ensures local { result.global ≡ false }
{
    Arg::new(alloc, "entry")
        .long("entry")
        .action(ArgAction::Set)
        .value_parser(clap::value_parser!(String))
}

fn points<'a>(alloc: Global) -> Arg<'a>
    ensures rule { rule_of result ≡ flag (codes "points") }
    ensures local { result.global ≡ false }
{
    Arg::new(alloc, "points")
        .long("points")
        .action(ArgAction::SetTrue)
}

fn lean<'a>(alloc: Global) -> Arg<'a>
    ensures rule { rule_of result ≡ flag (codes "lean") }
    ensures local { result.global ≡ false }
{
    Arg::new(alloc, "lean")
        .long("lean")
        .action(ArgAction::SetTrue)
}

fn packs<'a>(alloc: Global) -> Arg<'a>
    ensures rule { rule_of result ≡ flag (codes "packs") }
    ensures local { result.global ≡ false }
{
    Arg::new(alloc, "packs")
        .long("packs")
        .action(ArgAction::SetTrue)
}

fn peak<'a>(alloc: Global) -> Arg<'a>
    ensures rule { rule_of result ≡ flag (codes "peak") }
    ensures local { result.global ≡ false }
{
    Arg::new(alloc, "peak")
        .long("peak")
        .action(ArgAction::SetTrue)
}

// A command with one more option.
fn with<'a>(
    command: Result<Command<'a>, AllocError>,
    option: Arg<'a>,
) -> Result<Command<'a>, AllocError>
    ensures { (app : App) (rule : Rule) → IfOk command.entry (IsCommand app) → IsOption rule option.entry →
        IfOk result (IsCommand (with_rule app rule)) }
{
    match command {
        Ok(command) => command.arg(option),
        Err(error) => Err(error),
    }
}

// Two that are made. Generic, so that what is dropped where one isn't made is one value to the prover.
fn both<T: Drop, U: Drop>(
    first: Result<T, AllocError>,
    second: Result<U, AllocError>,
) -> Result<(T, U), AllocError>
    ensures { IfOk result (λ r. (first ≡ Ok r.0) × (second ≡ Ok r.1)) }
{
    match first {
        Ok(first) => match second {
            Ok(second) => Ok((first, second)),
            Err(error) => Err(error),
        },
        Err(error) => Err(error),
    }
}

// A command with one more command behind it.
fn before<'a>(
    command: Result<Command<'a>, AllocError>,
    behind: Result<Command<'a>, AllocError>,
) -> Result<Command<'a>, AllocError>
    ensures { (app sub : App) → IfOk command.entry (IsCommand app) → IfOk behind.entry (IsCommand sub) →
        IfOk result (IsCommand (with_subcommand app sub.top)) }
{
    let (command, behind) = both(command, behind)?;
    command.subcommand(behind)
}

// A command with the options of `run` that are numbers.
fn run_numbers<'a>(alloc: Global, name: &'a str) -> Result<Command<'a>, AllocError>
    ensures { IfOk result (IsCommand (command name.now run_number_options)) }
{
    let run = Ok(Command::new(alloc, name));
    let run = with(run, workers(alloc));
    let run = with(run, delay(alloc));
    let run = with(run, narrow(alloc));
    let run = with(run, oct(alloc));
    with(run, max_runs(alloc))
}

fn run_command<'a>(alloc: Global) -> Result<Command<'a>, AllocError>
    ensures { IfOk result (IsCommand run_app) }
{
    let run = with(run_numbers(alloc, "run"), entry(alloc));
    let run = with(run, points(alloc));
    let run = with(run, lean(alloc));
    with(run, packs(alloc))
}

fn order_command<'a>(alloc: Global) -> Result<Command<'a>, AllocError>
    ensures { IfOk result (IsCommand order_app) }
{
    let order = with(Ok(Command::new(alloc, "order")), entry(alloc));
    with(order, peak(alloc))
}

fn seed<'a>(alloc: Global) -> Arg<'a>
    ensures rule { rule_of result ≡ required_number (codes "seed") 0 2147483647 }
    ensures local { result.global ≡ false }
{
    Arg::new(alloc, "seed")
        .long("seed")
        .required(true)
        .action(ArgAction::Set)
        .value_parser(clap::value_parser!(i64).range(0..=2147483647))
}

fn size<'a>(alloc: Global) -> Arg<'a>
    ensures rule { rule_of result ≡ required_number (codes "size") 1 1000 }
    ensures local { result.global ≡ false }
{
    Arg::new(alloc, "size")
        .long("size")
        .required(true)
        .action(ArgAction::Set)
        .value_parser(clap::value_parser!(i64).range(1..=1000))
}

fn gen_command<'a>(alloc: Global) -> Result<Command<'a>, AllocError>
    ensures { IfOk result (IsCommand gen_app) }
{
    let made = with(Ok(Command::new(alloc, "gen")), seed(alloc));
    let made = with(made, size(alloc));
    with(made, workers(alloc))
}

fn cert_command<'a>(alloc: Global) -> Result<Command<'a>, AllocError>
    ensures { IfOk result (IsCommand cert_app) }
{
    with(run_numbers(alloc, "cert"), entry(alloc))
}

fn check_command<'a>(alloc: Global) -> Command<'a>
    ensures { IsCommand check_app result }
{
    Command::new(alloc, "check")
}

fn program<'a>(alloc: Global) -> Command<'a>
    ensures app { app_of result ≡ program_app }
    ensures local { (fields_of result).has_globals ≡ false }
{
    Command::new(alloc, "pikos")
        .no_binary_name(true)
        .disable_help_flag(true)
        .disable_version_flag(true)
        .disable_help_subcommand(true)
        .subcommand_required(true)
}

/// The program's command line.
pub fn command_line<'a>(alloc: Global) -> Result<Command<'a>, AllocError>
    ensures { IfOk result (λ c. app_of c ≡ pikos_app) }
{
    let program = before(Ok(program(alloc)), run_command(alloc));
    let program = before(program, order_command(alloc));
    let program = before(program, gen_command(alloc));
    let program = before(program, cert_command(alloc));
    let program = before(program, Ok(check_command(alloc)));
    program
}
