// Lines of certificates, and the first byte with which none goes on. Worked by hand.

ghost use Rattle.pk_cert.specs.Pieces.{IsHeadRead};

use pk_cert::{Head, Row, Shape, Symbol, Unread, read, read_head};
use std::alloc::Global;
use std::fmt::Write;
use std::process::Abort;
use std::test::Fail;

// The lines behind the head `pikos-cert 1 0 1 f` (20 bytes with its text), for two points, each with two numbers and two bounds: what they are, or the first wrong byte.
const LINES: [(&str, &str); 20] = [
    ("bot\nbot\n", "bot; bot; "),
    ("0 1 2 3\nbot\n", "0 1 2 3 ; bot; "),
    ("-5 7 * *\n0 0 * -9\n", "-5 7 * * ; 0 0 * -9 ; "),
    (
        "170141183460469231731687303715884105727 170141183460469231731687303715884105728 0 0\n-170141183460469231731687303715884105728 999999999999999999999999999999999999999 0 0\n",
        "170141183460469231731687303715884105727 far 0 0 ; far far 0 0 ; ",
    ),
    ("", "byte 20"),
    ("bot", "byte 23"),
    ("bit\n", "byte 21"),
    ("bot\n", "byte 24"),
    ("bot\nbot\nbot\n", "byte 28"),
    ("bot\nbot\n\n", "byte 28"),
    ("* 0 0 0\n", "byte 20"),
    ("0 * 0 0\n", "byte 22"),
    ("0 0 *\n", "byte 25"),
    ("0 0 0\n", "byte 25"),
    ("0 0 0 0 0\n", "byte 27"),
    ("0  0 0 0\n", "byte 22"),
    ("-0 0 0 0\n", "byte 21"),
    ("00 0 0 0\n", "byte 21"),
    ("+1 0 0 0\n", "byte 20"),
    ("1000000000000000000000000000000000000000", "byte 59"),
];

fn tell_symbol(told: &mut String, symbol: Symbol) -> Result<(), Fail> {
    match symbol {
        Symbol::Star => write!(told, "* ")?,
        Symbol::Number(number) => write!(told, "{number} ")?,
        Symbol::Far => write!(told, "far ")?,
    }
    Ok(())
}

fn tell_row(told: &mut String, row: &Row) -> Result<(), Fail> {
    match row {
        Row::Bottom => write!(told, "bot; ")?,
        Row::Symbols(symbols) => {
            for symbol in symbols {
                tell_symbol(told, *symbol)?;
            }
            write!(told, "; ")?;
        }
    }
    Ok(())
}

// What is told of the lines behind a head.
fn told_behind(alloc: Global, bytes: &[u8], head: &Head<'_>) -> Result<String, Fail>
    requires { IsHeadRead bytes.now head.now }
{
    let shape = Shape {
        numbers: 2,
        bounds: 2,
    };
    let mut told = String::new(alloc);
    match read(alloc, bytes, head, shape, 2) {
        Err(Unread::Byte(byte)) => write!(told, "byte {byte}")?,
        Err(Unread::Memory) => return Err("there is memory".into()),
        Ok(rows) => {
            for row in &rows {
                tell_row(&mut told, row)?;
            }
        }
    }
    Ok(told)
}

fn told(alloc: Global, lines: &str) -> Result<String, Fail> {
    let mut bytes = String::new(alloc);
    write!(bytes, "pikos-cert 1 0 1 f\n\n{lines}")?;
    match read_head(bytes.as_bytes()) {
        Err(_) => Err("the head is one".into()),
        Ok(head) => told_behind(alloc, bytes.as_bytes(), &head),
    }
}

#[test]
fn lines(rt: HostRuntime) -> Result<(), Fail> {
    for row in &LINES {
        let (text, wanted) = *row;
        assert!(rt; told(rt.alloc(), text)?.as_str() == wanted, "{text}");
    }
    Ok(())
}
