// Texts, and the places of their type names, which were worked out by hand.

use pk_lex::{Kind, lex};
use pk_typenames::mark;
use std::alloc::Global;
use std::fmt::Write;
use std::test::Fail;

const TEXTS: [(&str, &str); 13] = [
    ("int T; T x;", ""),
    ("typedef int T; T x;", "1:16"),
    ("typedef int T, T;", "1:16"),
    ("typedef int T, U; U T;", "1:19 1:21"),
    ("typedef int T\n;T x;T y;", "2:2 2:6"),
    ("typedef int A; typedef A B; B b;", "1:24 1:29"),
    ("typedef int T; int f(int T) { return T; }", "1:26 1:38"),
    ("typedef enum { A = T } T; T y;", "1:27"),
    ("typedef enum { A, B } E; E a = A;", "1:26"),
    ("int f(void) { typedef int T; } T x;", ""),
    ("} typedef int T; T x;", "1:18"),
    ("typedef int T[2]; T x;", ""),
    ("typedef int T", ""),
];

// The places of a text's type names.
fn type_names(alloc: Global, text: &str) -> Result<String, Fail> {
    let mut tokens = lex(alloc, text.as_bytes())?;
    mark(alloc, text.as_bytes(), &mut tokens)?;
    let mut out = String::new(alloc);
    for token in &tokens {
        if token.kind == Kind::TypeName {
            if !out.is_empty() {
                out.push_str(" ")?;
            }
            let at = token.at;
            write!(out, "{at}")?;
        }
    }
    Ok(out)
}

#[test]
fn each_text_has_its_type_names(rt: HostRuntime) -> Result<(), Fail> {
    for (text, expected) in &TEXTS {
        assert!(rt; type_names(rt.alloc(), *text)?.as_str() == *expected);
    }
    Ok(())
}
