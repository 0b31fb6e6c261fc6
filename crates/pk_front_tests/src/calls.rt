// Small units made by hand, and how many call paths they have or why none. The answers are those of the reference implementation on texts of these units.

use pk_calls::{CallError, Paths, paths};
use pk_ctypes::{IntType, Name, Pos};
use pk_typed::{Body, CallSite, FileObject, Function, Local, Start, Unit};
use std::alloc::Global;
use std::test::Fail;

// So many objects without a name.
fn nameless(alloc: Global, objects: usize) -> Result<Vec<Local>, Fail> {
    let mut locals = Vec::new(alloc);
    for _ in 0..objects {
        locals.push(Local {
            name: None,
            int_type: IntType::Int,
            length: None,
        })?;
    }
    Ok(locals)
}

// A function without a body.
fn without_body(alloc: Global, name: &str) -> Result<Function, Fail> {
    let name = Name::new(alloc, name.as_bytes())?;
    Ok(Function {
        name,
        returns: None,
        parameters: Vec::new(alloc),
        body: None,
    })
}

// A function with a body, these calls and so many objects without a name.
fn with_body(
    alloc: Global,
    name: &str,
    calls: Vec<CallSite>,
    objects: usize,
) -> Result<Function, Fail> {
    let name = Name::new(alloc, name.as_bytes())?;
    let locals = nameless(alloc, objects)?;
    let at = Pos { line: 1, column: 1 };
    let body = Body {
        open: at,
        close: at,
        locals,
        visible: 0,
        labels: 0,
        calls,
        items: Vec::new(alloc),
    };
    Ok(Function {
        name,
        returns: None,
        parameters: Vec::new(alloc),
        body: Some(body),
    })
}

// The number of the function with this name, as `f` in "h;main:h f;f:".
fn number(functions: &str, name: &str) -> Option<usize> {
    let mut number = 0usize;
    for function in functions.split(';') {
        let own = match function.split_once(':') {
            Some((own, _)) => own,
            None => function,
        };
        if own == name {
            return Some(number);
        }
        number = number.saturating_add(1);
    }
    None
}

// The calls of these functions, in a line of their own.
fn calls_of(
    alloc: Global,
    functions: &str,
    callees: &str,
    line: u64,
) -> Result<Vec<CallSite>, Fail> {
    let mut calls = Vec::new(alloc);
    let mut column = 1u64;
    for callee in callees.split_whitespace() {
        let function = number(functions, callee).ok_or("a function that is called isn't listed")?;
        let at = Pos { line, column };
        calls.push(CallSite { function, at })?;
        column = column.saturating_add(1);
    }
    Ok(calls)
}

// A function as `f:g h`, which calls g and h in a line of its own, or `f`, which has no body.
fn function(
    alloc: Global,
    functions: &str,
    text: &str,
    line: u64,
    objects: usize,
) -> Result<Function, Fail> {
    match text.split_once(':') {
        None => without_body(alloc, text),
        Some((name, callees)) => {
            let calls = calls_of(alloc, functions, callees, line)?;
            with_body(alloc, name, calls, objects)
        }
    }
}

// The unit of these functions, each with so many objects.
fn unit(alloc: Global, text: &str, objects: usize) -> Result<Unit, Fail> {
    let mut functions = Vec::new(alloc);
    let mut line = 1u64;
    for part in text.split(';') {
        functions.push(function(alloc, text, part, line, objects)?)?;
        line = line.saturating_add(1);
    }
    Ok(Unit {
        objects: Vec::new(alloc),
        functions,
    })
}

fn told(alloc: Global, answer: &Result<Paths, CallError>) -> Result<String, Fail> {
    let text = match answer {
        Ok(paths) => format!(in alloc; "paths {}", paths.len())?,
        Err(CallError::NoEntry { name }) => format!(in alloc; "no entry {name}")?,
        Err(CallError::Recursion { cycle }) => format!(in alloc; "recursion {cycle}")?,
        Err(CallError::UndefinedCall { name, at }) => {
            format!(in alloc; "undefined call {name} at {at}")?
        }
        Err(CallError::Limit { what, number }) => format!(in alloc; "limit {what} {number}")?,
        Err(CallError::Memory) => format!(in alloc; "memory")?,
    };
    Ok(text)
}

const UNITS: [(&str, &str, &str); 24] = [
    ("main:", "main", "paths 1"),
    ("main:f f;f:", "main", "paths 3"),
    ("main:f;f:g;g:f", "main", "recursion f g f"),
    ("main:h;h", "main", "undefined call h at 1:1"),
    ("main:main", "main", "recursion main main"),
    ("main:f h;f:f;h", "main", "recursion f f"),
    ("main:h f;f:f;h", "main", "undefined call h at 1:1"),
    ("main:f;f:g h;g:;h", "main", "undefined call h at 2:2"),
    ("main:f g;f:g;g:", "main", "paths 4"),
    ("main:f g;f:g;g:f", "main", "recursion f g f"),
    ("main:f;f:;x:h;h", "main", "paths 2"),
    ("main:;f:f", "main", "paths 1"),
    ("h;main:f;f:g g;g:k k;k:", "main", "paths 8"),
    ("main:f g h;f:k;g:k;h:k;k:", "main", "paths 7"),
    ("f:g;g:", "main", "no entry main"),
    ("main:a;a:b;b:c;c:b", "main", "recursion b c b"),
    ("main:f;f:g;g:h main;h:", "main", "recursion main f g main"),
    ("main:f;f:g;g:main h;h", "main", "recursion main f g main"),
    ("main:g f;f:h;g:h;h:f", "main", "recursion h f h"),
    ("f:g g;g:;main:h;h", "f", "paths 3"),
    ("main:;h", "h", "no entry h"),
    ("main:", "", "no entry "),
    ("abort:;main:abort", "main", "paths 2"),
    ("abort:;main:abort", "abort", "paths 1"),
];

#[test]
fn units(rt: HostRuntime) -> Result<(), Fail> {
    for row in &UNITS {
        let unit = unit(rt.alloc(), row.0, 0)?;
        let found = paths(rt.alloc(), &unit, row.1);
        assert!(rt; told(rt.alloc(), &found)?.as_str() == row.2, "{}", row.0);
    }
    Ok(())
}

// So many functions of which each calls the next twice, and then g, which calls nothing, and main.
fn doubling(alloc: Global, functions: u64, main: &str) -> Result<String, Fail> {
    let mut text = String::new(alloc);
    for f in 1..functions {
        let next = f + 1;
        write!(text, "f{f}:f{next} f{next};")?;
    }
    write!(text, "f{functions}:;g:;main:{main}")?;
    Ok(text)
}

const DOUBLINGS: [(u64, &str, &str); 3] = [
    (11, "f1 f1 g", "paths 4096"),
    (11, "f1 f1 g g", "limit paths 4096"),
    (60, "f1", "limit paths 4096"),
];

#[test]
fn path_limit(rt: HostRuntime) -> Result<(), Fail> {
    for row in &DOUBLINGS {
        let text = doubling(rt.alloc(), row.0, row.1)?;
        let unit = unit(rt.alloc(), &text, 0)?;
        let found = paths(rt.alloc(), &unit, "main");
        assert!(rt; told(rt.alloc(), &found)?.as_str() == row.2, "{text}");
    }
    Ok(())
}

// Objects of the file, of each function, and the answer for main and two calls of f. Objects without a name and results of functions that return nothing are counted.
const OBJECTS: [(usize, usize, &str); 4] = [
    (65533, 0, "paths 3"),
    (65534, 0, "limit variables 65536"),
    (1, 21844, "paths 3"),
    (2, 21844, "limit variables 65536"),
];

#[test]
fn variable_limit(rt: HostRuntime) -> Result<(), Fail> {
    for row in &OBJECTS {
        let mut unit = unit(rt.alloc(), "main:f f;f:", row.1)?;
        for _ in 0..row.0 {
            unit.objects.push(FileObject {
                name: Name::new(rt.alloc(), b"x")?,
                int_type: IntType::Int,
                start: Start::Scalar(0),
            })?;
        }
        let found = paths(rt.alloc(), &unit, "main");
        assert!(rt; told(rt.alloc(), &found)?.as_str() == row.2);
    }
    Ok(())
}

// Main, its calls of f, g and f, and the calls of g below f: each path with its number, function, and the path and call that lead to it.
#[test]
fn numbers(rt: HostRuntime) -> Result<(), Fail> {
    let unit = unit(rt.alloc(), "main:f g f;f:g;g:", 0)?;
    let Ok(paths) = paths(rt.alloc(), &unit, "main") else {
        return Err(Fail::from("the unit has call paths"));
    };
    let mut text = String::new(rt.alloc());
    for number in 0..paths.len() {
        let path = paths.path(number);
        let function = path.function;
        match path.caller {
            None => write!(text, "{function}")?,
            Some(caller) => {
                assert!(rt; paths.callee(caller.path, caller.call) == number);
                write!(text, " {}.{}:{function}", caller.path, caller.call)?;
            }
        }
    }
    assert!(rt; text.as_str() == "0 0.0:1 0.1:2 0.2:1 1.0:2 3.0:2");
    Ok(())
}

// Functions of which each calls the next, and the last this one.
fn chain(alloc: Global, functions: usize, last: Option<usize>) -> Result<Unit, Fail> {
    let at = Pos { line: 1, column: 1 };
    let mut list = Vec::new(alloc);
    for f in 1..functions {
        let mut calls = Vec::new(alloc);
        calls.push(CallSite { function: f, at })?;
        list.push(with_body(alloc, "main", calls, 0)?)?;
    }
    let mut calls = Vec::new(alloc);
    if let Some(function) = last {
        calls.push(CallSite { function, at })?;
    }
    list.push(with_body(alloc, "main", calls, 0)?)?;
    Ok(Unit {
        objects: Vec::new(alloc),
        functions: list,
    })
}

#[test]
fn deep(rt: HostRuntime) -> Result<(), Fail> {
    let open = chain(rt.alloc(), 100_000, None)?;
    let found = paths(rt.alloc(), &open, "main");
    assert!(rt; told(rt.alloc(), &found)?.as_str() == "limit paths 4096");
    let closed = chain(rt.alloc(), 100_000, Some(0))?;
    let Err(CallError::Recursion { cycle }) = paths(rt.alloc(), &closed, "main") else {
        return Err(Fail::from("the chain is closed"));
    };
    assert!(rt; cycle.as_slice().len() == 100_001);
    Ok(())
}

#[test]
fn wide(rt: HostRuntime) -> Result<(), Fail> {
    let mut calls = Vec::new(rt.alloc());
    for _ in 0..100_000 {
        calls.push(CallSite {
            function: 1,
            at: Pos { line: 1, column: 1 },
        })?;
    }
    let mut functions = Vec::new(rt.alloc());
    functions.push(with_body(rt.alloc(), "main", calls, 0)?)?;
    functions.push(with_body(rt.alloc(), "f", Vec::new(rt.alloc()), 0)?)?;
    let unit = Unit {
        objects: Vec::new(rt.alloc()),
        functions,
    };
    let found = paths(rt.alloc(), &unit, "main");
    assert!(rt; told(rt.alloc(), &found)?.as_str() == "limit paths 4096");
    Ok(())
}
