// The rules: one for each kind of fault.

ghost use Rattle.std.specs.Prelude.{◌≡◌, IfOk, string_bytes};
ghost use Rattle.pk_ctypes.specs.Words.{fault_text};
ghost use Rattle.serde_json.specs.View.{view};
ghost use Rattle.serde_json.specs.Data.{string};
ghost use Rattle.pk_sarif.specs.Rules.{title, meaning, help, level, configuration, rule, rules, tool};

use crate::objects::message;
use pk_ctypes::Fault;
use serde_json::{Value, json};
use std::alloc::{AllocError, Global};

#[tactic(auto, unfolding(crate::specs::Rules::title))]
fn title(fault: Fault) -> &'static str
    ensures { result.now ≡ title fault }
{
    match fault {
        Fault::Index => "The index may be out of bounds.",
        Fault::DivZero => "The divisor may be 0.",
        Fault::Overflow => "The result may not fit its type.",
        Fault::Shift => "The shift may be undefined.",
        Fault::Assert => "The assertion may fail.",
    }
}

#[tactic(auto, unfolding(crate::specs::Rules::meaning))]
fn meaning(fault: Fault) -> &'static str
    ensures { result.now ≡ meaning fault }
{
    match fault {
        Fault::Index => "The index of an array may be below 0 or not below the array's length.",
        Fault::DivZero => "The right operand of / or % may be 0.",
        Fault::Overflow => {
            "The result of an operation on signed numbers may lie outside of its type."
        }
        Fault::Shift => {
            "The count may be out of range, or the left operand or the result unfit for its signed type."
        }
        Fault::Assert => "The value that is asserted may be 0.",
    }
}

#[tactic(auto, unfolding(crate::specs::Rules::help))]
fn help(fault: Fault) -> &'static str
    ensures { result.now ≡ help fault }
{
    match fault {
        Fault::Index => {
            "Find a run with such an index, or tell its limit: by a test, a narrower type or an assumption."
        }
        Fault::DivZero => {
            "Find a run with such a divisor, or tell its limit: by a test or an assumption."
        }
        Fault::Overflow => {
            "Find a run with such operands, or tell their limits: by tests, a wider type or assumptions."
        }
        Fault::Shift => {
            "Find a run with such operands, or tell their limits: by tests, an unsigned type or assumptions."
        }
        Fault::Assert => {
            "Find a run with such a value, or tell what limits it: by tests or assumptions."
        }
    }
}

/// The name of a rule.
pub(crate) fn rule_name(alloc: Global, fault: Fault) -> Result<String, AllocError>
    ensures { IfOk result (λ s. string_bytes s ≡ fault_text fault) }
{
    format!(in alloc; "{fault}")
}

/// How much a finding weighs.
pub(crate) fn level(alloc: Global) -> Result<Value, AllocError>
    ensures { IfOk result (λ v. view v ≡ level) }
{
    Value::try_from_str(alloc, "warning")
}

fn configuration(alloc: Global) -> Result<Value, AllocError>
    ensures { IfOk result (λ v. view v ≡ configuration) }
{
    let level = level(alloc)?;
    json!(in alloc; {"level": level})
}

fn rule(alloc: Global, fault: Fault) -> Result<Value, AllocError>
    ensures { IfOk result (λ v. view v ≡ rule fault) }
{
    let name = rule_name(alloc, fault)?;
    let title = message(alloc, title(fault).as_bytes())?;
    let meaning = message(alloc, meaning(fault).as_bytes())?;
    let help = message(alloc, help(fault).as_bytes())?;
    let configuration = configuration(alloc)?;
    json!(in alloc; {
        "id": name,
        "shortDescription": title,
        "fullDescription": meaning,
        "help": help,
        "defaultConfiguration": configuration
    })
}

fn rules(alloc: Global) -> Result<Value, AllocError>
    ensures { IfOk result (λ v. view v ≡ rules) }
{
    let index = rule(alloc, Fault::Index)?;
    let divzero = rule(alloc, Fault::DivZero)?;
    let overflow = rule(alloc, Fault::Overflow)?;
    let shift = rule(alloc, Fault::Shift)?;
    let assert = rule(alloc, Fault::Assert)?;
    json!(in alloc; [index, divzero, overflow, shift, assert])
}

/// The tool, with its rules.
pub(crate) fn tool(alloc: Global) -> Result<Value, AllocError>
    ensures { IfOk result (λ v. view v ≡ tool) }
{
    let rules = rules(alloc)?;
    json!(in alloc; {"driver": {"name": "Pikos", "rules": rules}})
}
