// Types in typed trees: of expressions over all pairs of types, and the types to which their operands are converted. Expected values are those of gcc's `_Generic`.

use crate::typing::typed;
use pk_ctypes::IntType;
use pk_typed::{Effect, Item, Statement, Value};
use std::alloc::Global;
use std::test::Fail;

// The types by letters, in order of their letters.
const LETTERS: &str = "abcdefghijk";

fn letter(int_type: IntType) -> char {
    match int_type {
        IntType::Char => 'a',
        IntType::SChar => 'b',
        IntType::UChar => 'c',
        IntType::Short => 'd',
        IntType::UShort => 'e',
        IntType::Int => 'f',
        IntType::UInt => 'g',
        IntType::Long => 'h',
        IntType::ULong => 'i',
        IntType::LLong => 'j',
        IntType::ULLong => 'k',
    }
}

fn words(letter: char) -> &'static str {
    match letter {
        'a' => "char",
        'b' => "signed char",
        'c' => "unsigned char",
        'd' => "short",
        'e' => "unsigned short",
        'f' => "int",
        'g' => "unsigned",
        'h' => "long",
        'i' => "unsigned long",
        'j' => "long long",
        _ => "unsigned long long",
    }
}

// The left type, what it is promoted to, and the types of its products with each type.
const PRODUCTS: [(char, char, &str); 11] = [
    ('a', 'f', "ffffffghijk"),
    ('b', 'f', "ffffffghijk"),
    ('c', 'f', "ffffffghijk"),
    ('d', 'f', "ffffffghijk"),
    ('e', 'f', "ffffffghijk"),
    ('f', 'f', "ffffffghijk"),
    ('g', 'g', "ggggggghijk"),
    ('h', 'h', "hhhhhhhhijk"),
    ('i', 'i', "iiiiiiiiikk"),
    ('j', 'j', "jjjjjjjjkjk"),
    ('k', 'k', "kkkkkkkkkkk"),
];

// An expression, its type, and the type of its operator, where it has one: `u` for the type of a product, `p` for the promoted left type, `l` and `r` for the left and the right type, `i` for int.
const EXPRESSIONS: [(&str, char, char); 37] = [
    ("l*r", 'u', 'u'),
    ("l/r", 'u', 'u'),
    ("l%r", 'u', 'u'),
    ("l+r", 'u', 'u'),
    ("l-r", 'u', 'u'),
    ("l&r", 'u', 'u'),
    ("l|r", 'u', 'u'),
    ("l^r", 'u', 'u'),
    ("l<r", 'i', 'u'),
    ("l>r", 'i', 'u'),
    ("l<=r", 'i', 'u'),
    ("l>=r", 'i', 'u'),
    ("l==r", 'i', 'u'),
    ("l!=r", 'i', 'u'),
    ("l<<r", 'p', 'p'),
    ("l>>r", 'p', 'p'),
    ("l&&r", 'i', '-'),
    ("l||r", 'i', '-'),
    ("l,r", 'r', '-'),
    ("1?l:r", 'u', '-'),
    ("l=r", 'l', '-'),
    ("l*=r", 'l', 'u'),
    ("l/=r", 'l', 'u'),
    ("l%=r", 'l', 'u'),
    ("l+=r", 'l', 'u'),
    ("l-=r", 'l', 'u'),
    ("l&=r", 'l', 'u'),
    ("l|=r", 'l', 'u'),
    ("l^=r", 'l', 'u'),
    ("l<<=r", 'l', 'p'),
    ("l>>=r", 'l', 'p'),
    ("-l", 'p', 'p'),
    ("~l", 'p', 'p'),
    ("!l", 'i', 'p'),
    ("+l", 'p', '-'),
    ("l++", 'l', 'p'),
    ("--l", 'l', 'p'),
];

// The type to which the operands of an expression's operator are converted.
fn operator_type(value: &Value) -> Option<IntType> {
    match value {
        Value::Update(_, _, t, _, _) => Some(*t),
        Value::Step { int_type, .. } => Some(*int_type),
        Value::Unary(_, _, t, _) => Some(*t),
        Value::Binary { int_type, .. } => Some(*int_type),
        _ => None,
    }
}

// The letters of an expression's type and of its operator's.
fn of_value(value: &Value) -> (char, char) {
    let operator = operator_type(value).map_or('-', |t| letter(t));
    (letter(value.int_type()), operator)
}

fn of_effect(effect: &Effect) -> Option<(char, char)> {
    match effect {
        Effect::Unused(value) => Some(of_value(value)),
        _ => None,
    }
}

fn of_statement(statement: &Statement) -> Option<(char, char)> {
    match statement {
        Statement::Effect(_, effect) => of_effect(effect),
        _ => None,
    }
}

fn of_item(item: &Item) -> Option<(char, char)> {
    match item {
        Item::Statement(statement) => of_statement(statement),
        _ => None,
    }
}

// Those of the first statement of a text's first function.
fn letters(alloc: Global, text: &str) -> Result<Option<(char, char)>, Fail> {
    let unit = typed(alloc, text.as_bytes())?.ok();
    let item = unit
        .as_ref()
        .and_then(|u| u.functions.first())
        .and_then(|f| f.body.as_ref())
        .and_then(|b| b.items.first());
    Ok(item.and_then(|item| of_item(item)))
}

// The types of two operands.
#[derive(Clone, Copy)]
struct Operands {
    left: char,
    right: char,
    promoted: char,
    product: char,
}

impl Operands {
    fn wanted(self, kind: char) -> char {
        match kind {
            'u' => self.product,
            'p' => self.promoted,
            'l' => self.left,
            'r' => self.right,
            'i' => 'f',
            _ => '-',
        }
    }

    fn has(
        self,
        alloc: Global,
        expression: &str,
        whole: char,
        operator: char,
    ) -> Result<bool, Fail> {
        let left = words(self.left);
        let right = words(self.right);
        let text = format!(in alloc; "{left} l;{right} r;void f(void){{{expression};}}")?;
        let got = letters(alloc, text.as_str())?;
        Ok(got == Some((self.wanted(whole), self.wanted(operator))))
    }
}

#[test]
fn types(rt: HostRuntime) -> Result<(), Fail> {
    let alloc = rt.alloc();
    for (left, promoted, products) in &PRODUCTS {
        for (right, product) in LETTERS.chars().zip(products.chars()) {
            let operands = Operands {
                left: *left,
                right,
                promoted: *promoted,
                product,
            };
            for (expression, whole, operator) in &EXPRESSIONS {
                assert!(rt;
                    operands.has(alloc, expression, *whole, *operator)?,
                    "{expression} {left} {right}"
                );
            }
            let cast = format!(in alloc; "({})l", words(right))?;
            assert!(rt;
                operands.has(alloc, cast.as_str(), 'r', '-')?,
                "{cast} {left}"
            );
        }
    }
    Ok(())
}
