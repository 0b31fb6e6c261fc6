// Long, wide and deep texts, and numbers at the ends of their types.

use crate::typing::{is_told, typed};
use pk_typed::{Effect, Item, Place, Statement, Value, Variable};
use std::alloc::Global;
use std::fmt::Write;
use std::test::Fail;

// Pieces with their numbers, and what stands before and behind the number in each.
fn pieces(alloc: Global, count: u32, before: &str, behind: &str) -> Result<String, Fail> {
    let mut text = String::new(alloc);
    for n in 0..count {
        write!(text, "{before}{n}{behind}")?;
    }
    Ok(text)
}

// What stands before the pieces, what before and behind each number, how many they are, what stands behind them, and what is told of the text.
type Row = (
    &'static str,
    &'static str,
    &'static str,
    u32,
    &'static str,
    &'static str,
);

// Texts of about 4 MiB, of one kind each: declarations of the file, and one that is declared again.
const DECLARATIONS: [Row; 3] = [
    ("", "int x", ";", 340000, "", ""),
    ("", "int x", ";\n", 320000, "int x0;", "redeclared 320001:5"),
    ("int ", "x", ",", 480000, "y;", ""),
];

// Declarations in blocks.
const LOCALS: [Row; 3] = [
    ("void f(void){", "int x", ";", 340000, "}", ""),
    (
        "void f(void){\n",
        "int x",
        "=1;\n",
        280000,
        "int x0;}",
        "redeclared 280002:5",
    ),
    ("void f(void){", "{int x", ";}", 290000, "}", ""),
];

// One list, one item too many, and one call.
const LISTS: [Row; 4] = [
    ("int t[500000]={", "", ",", 500000, "};", ""),
    (
        "int t[500000]={\n",
        "",
        ",\n",
        500000,
        "1};",
        "initialiser 500002:1",
    ),
    (
        "void f(int a){f(",
        "",
        ",",
        500000,
        "a);}",
        "arguments 1:15",
    ),
    (
        "int a;void f(int a){g(",
        "a+",
        ",",
        400000,
        "(a=1));}",
        "undeclared 1:21",
    ),
];

// Labels and cases, and one of each that is there twice.
const LABELS: [Row; 4] = [
    ("void f(void){", "l", ":;", 400000, "}", ""),
    (
        "void f(void){\n",
        "l",
        ":;\n",
        350000,
        "l0:;}",
        "label 350002:1",
    ),
    ("void f(int a){switch(a){", "case ", ":;", 290000, "}}", ""),
    (
        "void f(int a){switch(a){\n",
        "case ",
        ":;\n",
        270000,
        "case 0:;}}",
        "jump 270002:1",
    ),
];

// Functions with as many parameters as there are variables.
const WIDE: [Row; 3] = [
    (
        "int f(",
        "int p",
        ",",
        65536,
        "int q){return p65535+q;}",
        "",
    ),
    (
        "int f(\n",
        "int p",
        ",\n",
        65536,
        "int p0){return 0;}",
        "redeclared 65538:5",
    ),
    (
        "int f(\n",
        "int p",
        ",\n",
        65536,
        "void v);",
        "void 65538:6",
    ),
];

// Numbers of cases at the ends of each type, before and after conversion to the promoted type.
const ENDS: [&str; 3] = [
    "void f(char a){switch(a){case -128:;case 127:;case -127:;case 126:;}}
void f(char a){switch(a){case -128:;case 127:;case -129:;case 128:;}}
void f(char a){switch(a){case -2147483647-1:;case 2147483647:;}}
void f(char a){switch(a){case -2147483647-1:;case 2147483648:;}} => jump 1:46
void f(char a){switch(a){case 2147483647:;case -2147483649:;}} => jump 1:43
void f(signed char a){switch(a){case -128:;case 127:;case -127:;case 126:;}}
void f(signed char a){switch(a){case -128:;case 127:;case -129:;case 128:;}}
void f(signed char a){switch(a){case -2147483647-1:;case 2147483647:;}}
void f(signed char a){switch(a){case -2147483647-1:;case 2147483648:;}} => jump 1:53
void f(signed char a){switch(a){case 2147483647:;case -2147483649:;}} => jump 1:50
void f(unsigned char a){switch(a){case 0:;case 255:;case 1:;case 254:;}}
void f(unsigned char a){switch(a){case 0:;case 255:;case -1:;case 256:;}}
void f(unsigned char a){switch(a){case -2147483647-1:;case 2147483647:;}}
void f(unsigned char a){switch(a){case -2147483647-1:;case 2147483648:;}} => jump 1:55
void f(unsigned char a){switch(a){case 2147483647:;case -2147483649:;}} => jump 1:52",
    "void f(short a){switch(a){case -32768:;case 32767:;case -32767:;case 32766:;}}
void f(short a){switch(a){case -32768:;case 32767:;case -32769:;case 32768:;}}
void f(short a){switch(a){case -2147483647-1:;case 2147483647:;}}
void f(short a){switch(a){case -2147483647-1:;case 2147483648:;}} => jump 1:47
void f(short a){switch(a){case 2147483647:;case -2147483649:;}} => jump 1:44
void f(unsigned short a){switch(a){case 0:;case 65535:;case 1:;case 65534:;}}
void f(unsigned short a){switch(a){case 0:;case 65535:;case -1:;case 65536:;}}
void f(unsigned short a){switch(a){case -2147483647-1:;case 2147483647:;}}
void f(unsigned short a){switch(a){case -2147483647-1:;case 2147483648:;}} => jump 1:56
void f(unsigned short a){switch(a){case 2147483647:;case -2147483649:;}} => jump 1:53
void f(int a){switch(a){case -2147483647-1:;case 2147483647:;case -2147483647:;case 2147483646:;}}
void f(int a){switch(a){case -2147483647-1:;case 2147483647:;}}
void f(int a){switch(a){case -2147483647-1:;case 2147483648:;}} => jump 1:45
void f(int a){switch(a){case 2147483647:;case -2147483649:;}} => jump 1:42
void f(unsigned a){switch(a){case 0:;case 4294967295:;case 1:;case 4294967294:;}}",
    "void f(unsigned a){switch(a){case 0:;case 4294967295:;}}
void f(unsigned a){switch(a){case 0:;case 4294967296:;}} => jump 1:38
void f(unsigned a){switch(a){case 4294967295:;case -1:;}} => jump 1:47
void f(long a){switch(a){case -9223372036854775807-1:;case 9223372036854775807:;case -9223372036854775807:;case 9223372036854775806:;}}
void f(long a){switch(a){case -9223372036854775807-1:;case 9223372036854775807:;}}
void f(long a){switch(a){case -9223372036854775807-1:;case 9223372036854775808u:;}} => jump 1:55
void f(unsigned long a){switch(a){case 0:;case 18446744073709551615u:;case 1:;case 18446744073709551614u:;}}
void f(unsigned long a){switch(a){case 0:;case 18446744073709551615u:;}}
void f(unsigned long a){switch(a){case -1:;case 18446744073709551615u:;}} => jump 1:44
void f(long long a){switch(a){case -9223372036854775807-1:;case 9223372036854775807:;case -9223372036854775807:;case 9223372036854775806:;}}
void f(long long a){switch(a){case -9223372036854775807-1:;case 9223372036854775807:;}}
void f(long long a){switch(a){case -9223372036854775807-1:;case 9223372036854775808u:;}} => jump 1:60
void f(unsigned long long a){switch(a){case 0:;case 18446744073709551615u:;case 1:;case 18446744073709551614u:;}}
void f(unsigned long long a){switch(a){case 0:;case 18446744073709551615u:;}}
void f(unsigned long long a){switch(a){case -1:;case 18446744073709551615u:;}} => jump 1:49",
];

fn is_told_of(alloc: Global, row: &Row) -> Result<bool, Fail> {
    let (front, before, behind, count, back, wanted) = *row;
    let middle = pieces(alloc, count, before, behind)?;
    let text = format!(in alloc; "{front}{middle}{back}")?;
    is_told(alloc, text.as_str(), wanted)
}

#[test]
fn declarations(rt: HostRuntime) -> Result<(), Fail> {
    for row in &DECLARATIONS {
        assert!(rt; is_told_of(rt.alloc(), row)?, "{} {}", row.0, row.1);
    }
    Ok(())
}

#[test]
fn locals(rt: HostRuntime) -> Result<(), Fail> {
    for row in &LOCALS {
        assert!(rt; is_told_of(rt.alloc(), row)?, "{} {}", row.0, row.1);
    }
    Ok(())
}

#[test]
fn lists(rt: HostRuntime) -> Result<(), Fail> {
    for row in &LISTS {
        assert!(rt; is_told_of(rt.alloc(), row)?, "{} {}", row.0, row.1);
    }
    Ok(())
}

#[test]
fn labels(rt: HostRuntime) -> Result<(), Fail> {
    for row in &LABELS {
        assert!(rt; is_told_of(rt.alloc(), row)?, "{} {}", row.0, row.1);
    }
    Ok(())
}

#[test]
fn wide_functions(rt: HostRuntime) -> Result<(), Fail> {
    for row in &WIDE {
        assert!(rt; is_told_of(rt.alloc(), row)?, "{} {}", row.0, row.1);
    }
    Ok(())
}

#[test]
fn ends_of_types(rt: HostRuntime) -> Result<(), Fail> {
    for table in &ENDS {
        for line in table.split('\n') {
            let (text, wanted) = line.split_once(" => ").unwrap_or((line, ""));
            assert!(rt; is_told(rt.alloc(), text, wanted)?, "{text}");
        }
    }
    Ok(())
}

// A jump to each of many labels, forward and back, and one to none.
#[test]
fn jumps(rt: HostRuntime) -> Result<(), Fail> {
    let alloc = rt.alloc();
    let labels = pieces(alloc, 150000, "l", ":;")?;
    let jumps = pieces(alloc, 150000, "goto l", ";")?;
    let forward = format!(in alloc; "void f(void){{{jumps}{labels}}}")?;
    assert!(rt; is_told(alloc, forward.as_str(), "")?);
    let back = format!(in alloc; "void f(void){{{labels}{jumps}}}")?;
    assert!(rt; is_told(alloc, back.as_str(), "")?);
    let none = format!(in alloc; "void f(void){{{labels}{jumps}\ngoto l150000;}}")?;
    assert!(rt; is_told(alloc, none.as_str(), "label 2:6")?);
    Ok(())
}

// A call with as many arguments as there are variables, each of which changes one; and then the last one names the first.
#[test]
fn wide_calls(rt: HostRuntime) -> Result<(), Fail> {
    let alloc = rt.alloc();
    let objects = pieces(alloc, 65536, "int x", ";")?;
    let parameters = pieces(alloc, 65536, "int p", ",")?;
    let arguments = pieces(alloc, 65536, "x", "=1,")?;
    let front = format!(in alloc; "{objects}int f({parameters}int p);\nvoid g(void){{")?;
    let apart = format!(in alloc; "{front}f({arguments}1);}}")?;
    assert!(rt; is_told(alloc, apart.as_str(), "")?);
    let clash = format!(in alloc; "{front}f({arguments}x0);}}")?;
    assert!(rt; is_told(alloc, clash.as_str(), "unsequenced 2:14")?);
    let more = format!(in alloc; "{front}f({arguments}1,x0=2);}}")?;
    assert!(rt; is_told(alloc, more.as_str(), "arguments 2:14")?);
    Ok(())
}

// The object that an expression reads.
fn read_by(value: &Value) -> Option<Variable> {
    match value {
        Value::Read(place) => match place {
            Place::Scalar(_, variable) => Some(*variable),
            _ => None,
        },
        _ => None,
    }
}

fn effect_read(effect: &Effect) -> Option<Variable> {
    match effect {
        Effect::Unused(value) => read_by(value),
        _ => None,
    }
}

fn statement_read(statement: &Statement) -> Option<Variable> {
    match statement {
        Statement::Effect(_, effect) => effect_read(effect),
        _ => None,
    }
}

fn item_read(item: &Item) -> Option<Variable> {
    match item {
        Item::Statement(statement) => statement_read(statement),
        _ => None,
    }
}

// Whether the last item is a read of this object.
fn reads(items: &[Item], number: usize) -> bool {
    match items.last().and_then(|item| item_read(item)) {
        Some(Variable::Local(local)) => local == number,
        _ => false,
    }
}

fn statement_block(statement: &Statement) -> Option<&[Item]> {
    match statement {
        Statement::Block(_, items) => Some(items.as_slice()),
        _ => None,
    }
}

fn item_block(item: &Item) -> Option<&[Item]> {
    match item {
        Item::Statement(statement) => statement_block(statement),
        _ => None,
    }
}

// The block among the items.
fn block(items: &[Item]) -> &[Item] {
    items
        .get(1)
        .and_then(|item| item_block(item))
        .unwrap_or(&items[..0])
}

// An object of one name in each of 126 blocks: what is read in a block is its own, also behind the blocks in it.
#[test]
fn shadowing(rt: HostRuntime) -> Result<(), Fail> {
    let alloc = rt.alloc();
    let open = "{int x;".repeat(alloc, 126)?;
    let close = "}x;".repeat(alloc, 126)?;
    let text = format!(in alloc; "void f(void){{int x;{open}x;{close}}}")?;
    let unit = typed(alloc, text.as_bytes())?.ok();
    let body = unit
        .as_ref()
        .and_then(|u| u.functions.first())
        .and_then(|f| f.body.as_ref());
    let mut items = body.map_or(&[][..], |b| b.items.as_slice());
    for number in 0..127 {
        assert!(rt; reads(items, number), "{number}");
        items = block(items);
    }
    assert!(rt; items.is_empty());
    Ok(())
}
