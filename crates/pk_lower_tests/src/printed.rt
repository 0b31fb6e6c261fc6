// A graph as a text: a line for each call path, variable and point, and one for all accesses.

ghost use Rattle.std.specs.Prelude.{◌<◌, length};
ghost use Rattle.pk_graph.specs.Shown.{graph_view};

use pk_ctypes::{IntType, Op};
use pk_graph::{
    Array, Graph, Instr, Operation, Path, Site, Start, Tree, Variable, accesses, visible,
};
use std::alloc::{AllocError, Global};
use std::fmt::Write;

fn word(int_type: IntType) -> &'static str {
    match int_type {
        IntType::Char => "char",
        IntType::SChar => "schar",
        IntType::UChar => "uchar",
        IntType::Short => "short",
        IntType::UShort => "ushort",
        IntType::Int => "int",
        IntType::UInt => "uint",
        IntType::Long => "long",
        IntType::ULong => "ulong",
        IntType::LLong => "llong",
        IntType::ULLong => "ullong",
    }
}

fn sign(operator: Op) -> &'static str {
    match operator {
        Op::Add => "+",
        Op::Sub => "-",
        Op::Mul => "*",
        Op::Div => "/",
        Op::Rem => "%",
        Op::Shl => "<<",
        Op::Shr => ">>",
        Op::And => "&",
        Op::Or => "|",
        Op::Xor => "^",
        Op::Lt => "<",
        Op::Gt => ">",
        Op::Le => "<=",
        Op::Ge => ">=",
        Op::Eq => "==",
        Op::Ne => "!=",
        Op::Neg => "-",
        Op::BitNot => "~",
        Op::Not => "!",
    }
}

fn kind(operation: &Operation<'_>) -> &'static str {
    match operation {
        Operation::Index(..) => "index",
        Operation::Divisor(..) => "divzero",
        Operation::Negation(..) => "overflow",
        Operation::Result(..) => "overflow",
        Operation::Shift(..) => "shift",
        Operation::Assertion(..) => "assert",
    }
}

// The place of an operation and its path.
fn site(text: &mut String, site: Site) -> Result<(), AllocError> {
    write!(text, "{}/{}", site.at, site.path)
}

fn name(text: &mut String, variables: &[Variable], number: usize) -> Result<(), AllocError> {
    if let Some(variable) = variables.get(number) {
        if let Some(name) = &variable.name {
            write!(text, "{name}")?;
        }
    }
    write!(text, "#{number}")
}

fn tree(text: &mut String, variables: &[Variable], e: &Tree) -> Result<(), AllocError> {
    match e {
        Tree::Constant(IntType::Int, number) => write!(text, "{number}"),
        Tree::Constant(int_type, number) => write!(text, "{number}{}", word(*int_type)),
        Tree::Variable(number) => name(text, variables, *number),
        Tree::Converted(int_type, operand) => {
            write!(text, "({})", word(*int_type))?;
            tree(text, variables, operand)
        }
        Tree::Unary(operator, at, int_type, operand) => {
            write!(text, "{}.{}@", sign(*operator), word(*int_type))?;
            site(text, *at)?;
            text.push('[')?;
            tree(text, variables, operand)?;
            text.push(']')
        }
        Tree::Binary {
            operator,
            site: at,
            int_type,
            left,
            right,
        } => {
            text.push('(')?;
            tree(text, variables, left)?;
            write!(text, " {}.{}@", sign(*operator), word(*int_type))?;
            site(text, *at)?;
            text.push(' ')?;
            tree(text, variables, right)?;
            text.push(')')
        }
    }
}

// An index, and the place of its `[` where it is an access.
fn index(
    text: &mut String,
    variables: &[Variable],
    array: Array,
    e: &Tree,
    access: Option<Site>,
) -> Result<(), AllocError> {
    name(text, variables, array.variable)?;
    text.push('[')?;
    tree(text, variables, e)?;
    text.push(']')?;
    if let Some(at) = access {
        text.push('@')?;
        site(text, at)?;
    }
    Ok(())
}

fn instruction(text: &mut String, variables: &[Variable], instr: &Instr) -> Result<(), AllocError> {
    match instr {
        Instr::Skip => text.push_str("skip"),
        Instr::Set(number, value) => {
            name(text, variables, *number)?;
            text.push_str(" = ")?;
            tree(text, variables, value)
        }
        Instr::Havoc {
            variable,
            count,
            ..
        } => {
            name(text, variables, *variable)?;
            write!(text, " = any {count}")
        }
        Instr::Clear(array) => {
            name(text, variables, array.variable)?;
            write!(text, " = 0 {}", array.length)
        }
        Instr::Load {
            variable,
            array,
            site,
            is_access,
            index: e,
        } => {
            name(text, variables, *variable)?;
            text.push_str(" = ")?;
            index(text, variables, *array, e, is_access.then_some(*site))
        }
        Instr::Store {
            array,
            site,
            is_access,
            index: e,
            value,
        } => {
            index(text, variables, *array, e, is_access.then_some(*site))?;
            text.push_str(" = ")?;
            tree(text, variables, value)
        }
        Instr::Guard(condition, sense) => {
            text.push_str(if *sense { "if " } else { "unless " })?;
            tree(text, variables, condition)
        }
        Instr::Check(at, condition) => {
            text.push_str("check@")?;
            site(text, *at)?;
            text.push(' ')?;
            tree(text, variables, condition)
        }
    }
}

// A path's function, with the call that leads to it.
fn path(text: &mut String, path: &Path) -> Result<(), AllocError> {
    write!(text, "path {}", path.name)?;
    if let Some(call) = path.call {
        text.push('@')?;
        site(text, call)?;
    }
    text.push('\n')
}

// A variable's type, and what it holds when a run begins.
fn variable(text: &mut String, variables: &[Variable], number: usize) -> Result<(), AllocError> {
    let Some(variable) = variables.get(number) else {
        return Ok(());
    };
    text.push_str("var ")?;
    name(text, variables, number)?;
    write!(text, " {}", word(variable.int_type))?;
    if let Some(length) = variable.length {
        write!(text, "[{length}]")?;
    }
    match &variable.start {
        Start::Any => text.push_str(" any")?,
        Start::Numbers(numbers) => {
            for k in 0..variable.length.unwrap_or(1) {
                write!(text, " {}", numbers.get(k).unwrap_or(&0))?;
            }
        }
    }
    text.push('\n')
}

// A point's place and path, the names that are visible there, and its edges.
fn point(alloc: Global, text: &mut String, graph: &Graph, number: usize) -> Result<(), AllocError>
    requires { number < length (graph_view graph.now).points }
{
    write!(
        text,
        "{number} {}/{} (",
        graph.position(number),
        graph.path(number)
    )?;
    let variables = graph.variables();
    let mut separator = "";
    for seen in &visible(alloc, graph, number)? {
        text.push_str(separator)?;
        name(text, variables, *seen)?;
        separator = " ";
    }
    text.push(')')?;
    separator = " ";
    for edge in graph.edges(number) {
        text.push_str(separator)?;
        instruction(text, variables, &edge.instr)?;
        write!(text, " -> {}", edge.to)?;
        separator = "; ";
    }
    text.push('\n')
}

pub fn printed(alloc: Global, graph: &Graph) -> Result<String, AllocError> {
    let mut text = String::new(alloc);
    for each in graph.paths() {
        path(&mut text, each)?;
    }
    for number in 0..graph.variables().len() {
        variable(&mut text, graph.variables(), number)?;
    }
    for number in 0..graph.points() {
        point(alloc, &mut text, graph, number)?;
    }
    text.push_str("accesses")?;
    for access in &accesses(alloc, graph)? {
        write!(text, " {} ", kind(&access.operation))?;
        site(&mut text, access.site)?;
    }
    Ok(text)
}
