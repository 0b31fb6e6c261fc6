// Tables over the forms of tokens and the refusals. An independent implementation gave what is expected.

use pk_lex::{Keyword, Kind, LexError, Punctuator, lex};
use std::alloc::Global;
use std::fmt::Write;
use std::test::Fail;

const TOKENS: [(&[u8], &str); 37] = [
    (
        b"auto break case char const continue",
        "1:1 Auto, 1:6 Break, 1:12 Case, 1:17 Char, 1:22 Const, 1:28 Continue, 1:36 End",
    ),
    (
        b"default do double else enum extern",
        "1:1 Default, 1:9 Do, 1:12 Double, 1:19 Else, 1:24 Enum, 1:29 Extern, 1:35 End",
    ),
    (
        b"float for goto if inline int long",
        "1:1 Float, 1:7 For, 1:11 Goto, 1:16 If, 1:19 Inline, 1:26 Int, 1:30 Long, 1:34 End",
    ),
    (
        b"register restrict return short signed sizeof",
        "1:1 Register, 1:10 Restrict, 1:19 Return, 1:26 Short, 1:32 Signed, 1:39 Sizeof, 1:45 End",
    ),
    (
        b"static struct switch typedef union unsigned",
        "1:1 Static, 1:8 Struct, 1:15 Switch, 1:22 Typedef, 1:30 Union, 1:36 Unsigned, 1:44 End",
    ),
    (
        b"void volatile while _Bool _Complex _Imaginary",
        "1:1 Void, 1:6 Volatile, 1:15 While, 1:21 Bool, 1:27 Complex, 1:36 Imaginary, 1:46 End",
    ),
    (
        b"asm __asm__ __attribute__ __extension__ __inline __restrict",
        "1:1 Asm, 1:5 GnuAsm, 1:13 GnuAttribute, 1:27 GnuExtension, 1:41 GnuInline, 1:50 GnuRestrict, 1:60 End",
    ),
    (
        b"integer __asm _1a whiles",
        "1:1 Name, 1:9 Name, 1:15 Name, 1:19 Name, 1:25 End",
    ),
    (
        b"()[]{};:,?~",
        "1:1 OpenParenthesis, 1:2 CloseParenthesis, 1:3 OpenBracket, 1:4 CloseBracket, 1:5 OpenBrace, 1:6 CloseBrace, 1:7 Semicolon, 1:8 Colon, 1:9 Comma, 1:10 Question, 1:11 Tilde, 1:12 End",
    ),
    (
        b"+ - * / % & ^ | ! = < >",
        "1:1 Plus, 1:3 Minus, 1:5 Star, 1:7 Slash, 1:9 Percent, 1:11 Ampersand, 1:13 Caret, 1:15 Bar, 1:17 Exclamation, 1:19 Assign, 1:21 Less, 1:23 Greater, 1:24 End",
    ),
    (
        b"++--<<>><=>===!=&&||",
        "1:1 Increment, 1:3 Decrement, 1:5 ShiftLeft, 1:7 ShiftRight, 1:9 LessOrEqual, 1:11 GreaterOrEqual, 1:13 Equal, 1:15 NotEqual, 1:17 LogicalAnd, 1:19 LogicalOr, 1:21 End",
    ),
    (
        b"+=-=*=/=%=<<=>>=&=^=|=",
        "1:1 PlusAssign, 1:3 MinusAssign, 1:5 StarAssign, 1:7 SlashAssign, 1:9 PercentAssign, 1:11 ShiftLeftAssign, 1:14 ShiftRightAssign, 1:17 AmpersandAssign, 1:19 CaretAssign, 1:21 BarAssign, 1:23 End",
    ),
    (b"....->", "1:1 Ellipsis, 1:4 Dot, 1:5 Arrow, 1:7 End"),
    (
        b"a+++b<<<=c--->d",
        "1:1 Name, 1:2 Increment, 1:4 Plus, 1:5 Name, 1:6 ShiftLeft, 1:8 LessOrEqual, 1:10 Name, 1:11 Decrement, 1:13 Arrow, 1:15 Name, 1:16 End",
    ),
    (
        b"0 07 0x1F 0XaU 1u 1L 1ll 1uLL 1LLu 1lU",
        "1:1 0 Int, 1:3 7 Int, 1:6 31 Int, 1:11 10 UInt, 1:16 1 UInt, 1:19 1 Long, 1:22 1 LLong, 1:26 1 ULLong, 1:31 1 ULLong, 1:36 1 ULong, 1:39 End",
    ),
    (
        b"2147483647 2147483648 9223372036854775807",
        "1:1 2147483647 Int, 1:12 2147483648 Long, 1:23 9223372036854775807 Long, 1:42 End",
    ),
    (
        b"2147483647u 4294967295u 4294967296u 18446744073709551615u",
        "1:1 2147483647 UInt, 1:13 4294967295 UInt, 1:25 4294967296 ULong, 1:37 18446744073709551615 ULong, 1:58 End",
    ),
    (
        b"0x7fffffff 0x80000000 0xffffffff 0x100000000",
        "1:1 2147483647 Int, 1:12 2147483648 UInt, 1:23 4294967295 UInt, 1:34 4294967296 Long, 1:45 End",
    ),
    (
        b"0x7fffffffffffffff 0x8000000000000000 0xffffffffffffffff",
        "1:1 9223372036854775807 Long, 1:20 9223372036854775808 ULong, 1:39 18446744073709551615 ULong, 1:57 End",
    ),
    (
        b"017777777777 037777777777 040000000000",
        "1:1 2147483647 Int, 1:14 4294967295 UInt, 1:27 4294967296 Long, 1:39 End",
    ),
    (
        b"2147483648u 1l 0x80000000l 0xffffffffffffffffll",
        "1:1 2147483648 UInt, 1:13 1 Long, 1:16 2147483648 Long, 1:28 18446744073709551615 ULLong, 1:48 End",
    ),
    (
        b"1.5 .5 1. 1e5 1E+3 0e 1.2.3 0x1.8p3 1e+5abc",
        "1:1 Floating, 1:5 Floating, 1:8 Floating, 1:11 Floating, 1:15 Floating, 1:20 Floating, 1:23 Floating, 1:29 Floating, 1:37 Floating, 1:44 End",
    ),
    (
        b"'a' ' ' '~' '\"' '\\'' '\\\"' '\\?' '\\\\'",
        "1:1 Character 97, 1:5 Character 32, 1:9 Character 126, 1:13 Character 34, 1:17 Character 39, 1:22 Character 34, 1:27 Character 63, 1:32 Character 92, 1:36 End",
    ),
    (
        b"'\\a' '\\b' '\\f' '\\n' '\\r' '\\t' '\\v'",
        "1:1 Character 7, 1:6 Character 8, 1:11 Character 12, 1:16 Character 10, 1:21 Character 13, 1:26 Character 9, 1:31 Character 11, 1:35 End",
    ),
    (
        b"'\\0' '\\7' '\\101' '\\177' '\\200' '\\377'",
        "1:1 Character 0, 1:6 Character 7, 1:11 Character 65, 1:18 Character 127, 1:25 Character -128, 1:32 Character -1, 1:38 End",
    ),
    (
        b"'\\x7' '\\x41' '\\xfF' '\\x80'",
        "1:1 Character 7, 1:7 Character 65, 1:14 Character -1, 1:21 Character -128, 1:27 End",
    ),
    (
        b"\"\" \"a\\\"b\" \"\\\\\" \"/*\" \"'\"",
        "1:1 StringLiteral, 1:4 StringLiteral, 1:11 StringLiteral, 1:16 StringLiteral, 1:21 StringLiteral, 1:24 End",
    ),
    (
        b"a /* b \n c */ d // e\nf",
        "1:1 Name, 2:7 Name, 3:1 Name, 3:2 End",
    ),
    (b"/***/a/*/ */b", "1:6 Name, 1:13 Name, 1:14 End"),
    (b"/* /* */ c", "1:10 Name, 1:11 End"),
    (b"//", "1:3 End"),
    (b"\t\x0b\x0c\r a\r\n\nb", "1:6 Name, 3:1 Name, 3:2 End"),
    (
        b"#pragma x\n# 1 \"a.c\"\n \t#pragma\na",
        "4:1 Name, 4:2 End",
    ),
    (
        b"#define A /* @\n\x0c#pragmatic\n#\n# \nb",
        "1:1 Directive, 2:2 Directive, 3:1 Directive, 4:1 Directive, 5:1 Name, 5:2 End",
    ),
    (b"a\n#include <x> // y", "1:1 Name, 2:1 Directive, 2:18 End"),
    (b"#pragma /* @ \"\nx", "2:1 Name, 2:2 End"),
    (b"/* \n # 1 */ a", "2:9 Name, 2:10 End"),
];

const REFUSED: [(&[u8], &str); 47] = [
    (b"'ab'", "lexical char at 1:1"),
    (b"''", "lexical char at 1:1"),
    (b"'\\377'+'\\400'", "lexical char at 1:8"),
    (b"\"x", "lexical string at 1:1"),
    (b"/* x", "lexical comment at 1:1"),
    (b"a#b", "lexical byte at 1:2"),
    (b"0x", "lexical constant at 1:1"),
    (b"0x1e+3", "lexical constant at 1:1"),
    (b"1p5", "lexical constant at 1:1"),
    (b"9223372036854775808", "lexical constant at 1:1"),
    (b"18446744073709551616u", "lexical constant at 1:1"),
    (b"1ulu", "lexical constant at 1:1"),
    (b"/**/#pragma x", "lexical byte at 1:5"),
    (b"\\", "lexical byte at 1:1"),
    (b"08", "lexical constant at 1:1"),
    (b"1lL", "lexical constant at 1:1"),
    (b"0xe+1", "lexical constant at 1:1"),
    (b"1LLl", "lexical constant at 1:1"),
    (b"1uu", "lexical constant at 1:1"),
    (b"0b1", "lexical constant at 1:1"),
    (b"0x1g", "lexical constant at 1:1"),
    (b"18446744073709551616", "lexical constant at 1:1"),
    (b"'", "lexical char at 1:1"),
    (b"'a", "lexical char at 1:1"),
    (b"'\t'", "lexical char at 1:1"),
    (b"'\\x'", "lexical char at 1:1"),
    (b"'\\x123'", "lexical char at 1:1"),
    (b"'\\8'", "lexical char at 1:1"),
    (b"'\\0001'", "lexical char at 1:1"),
    (b"'\\", "lexical char at 1:1"),
    (b"'\\q'", "lexical char at 1:1"),
    (b"'\x7f'", "lexical char at 1:1"),
    (b"\"a\n\"", "lexical string at 1:1"),
    (b"\"a\\\"", "lexical string at 1:1"),
    (b"\"a\\\n\"", "lexical string at 1:1"),
    (b"a\\\nb", "lexical byte at 1:2"),
    (b"@", "lexical byte at 1:1"),
    (b"a $", "lexical byte at 1:3"),
    (b"`", "lexical byte at 1:1"),
    (b"\xe9", "lexical byte at 1:1"),
    (b"\0", "lexical byte at 1:1"),
    (b"/*\n*/ # 1", "lexical byte at 2:4"),
    (b"a;\nb /* c\n d", "lexical comment at 2:3"),
    (b"/*/", "lexical comment at 1:1"),
    (b"1 # 2", "lexical byte at 1:3"),
    (b"float x; @", "lexical byte at 1:10"),
    (b"a\n\nb\n   08", "lexical constant at 4:4"),
];

// The names by which the tables show words.
const KEYWORDS: [(Keyword, &str); 43] = [
    (Keyword::Auto, "Auto"),
    (Keyword::Break, "Break"),
    (Keyword::Case, "Case"),
    (Keyword::Char, "Char"),
    (Keyword::Const, "Const"),
    (Keyword::Continue, "Continue"),
    (Keyword::Default, "Default"),
    (Keyword::Do, "Do"),
    (Keyword::Double, "Double"),
    (Keyword::Else, "Else"),
    (Keyword::Enum, "Enum"),
    (Keyword::Extern, "Extern"),
    (Keyword::Float, "Float"),
    (Keyword::For, "For"),
    (Keyword::Goto, "Goto"),
    (Keyword::If, "If"),
    (Keyword::Inline, "Inline"),
    (Keyword::Int, "Int"),
    (Keyword::Long, "Long"),
    (Keyword::Register, "Register"),
    (Keyword::Restrict, "Restrict"),
    (Keyword::Return, "Return"),
    (Keyword::Short, "Short"),
    (Keyword::Signed, "Signed"),
    (Keyword::Sizeof, "Sizeof"),
    (Keyword::Static, "Static"),
    (Keyword::Struct, "Struct"),
    (Keyword::Switch, "Switch"),
    (Keyword::Typedef, "Typedef"),
    (Keyword::Union, "Union"),
    (Keyword::Unsigned, "Unsigned"),
    (Keyword::Void, "Void"),
    (Keyword::Volatile, "Volatile"),
    (Keyword::While, "While"),
    (Keyword::Bool, "Bool"),
    (Keyword::Complex, "Complex"),
    (Keyword::Imaginary, "Imaginary"),
    (Keyword::Asm, "Asm"),
    (Keyword::GnuAsm, "GnuAsm"),
    (Keyword::GnuAttribute, "GnuAttribute"),
    (Keyword::GnuExtension, "GnuExtension"),
    (Keyword::GnuInline, "GnuInline"),
    (Keyword::GnuRestrict, "GnuRestrict"),
];

const PUNCTUATORS: [(Punctuator, &str); 46] = [
    (Punctuator::OpenParenthesis, "OpenParenthesis"),
    (Punctuator::CloseParenthesis, "CloseParenthesis"),
    (Punctuator::OpenBracket, "OpenBracket"),
    (Punctuator::CloseBracket, "CloseBracket"),
    (Punctuator::OpenBrace, "OpenBrace"),
    (Punctuator::CloseBrace, "CloseBrace"),
    (Punctuator::Semicolon, "Semicolon"),
    (Punctuator::Colon, "Colon"),
    (Punctuator::Comma, "Comma"),
    (Punctuator::Question, "Question"),
    (Punctuator::Tilde, "Tilde"),
    (Punctuator::Plus, "Plus"),
    (Punctuator::Minus, "Minus"),
    (Punctuator::Star, "Star"),
    (Punctuator::Slash, "Slash"),
    (Punctuator::Percent, "Percent"),
    (Punctuator::Ampersand, "Ampersand"),
    (Punctuator::Caret, "Caret"),
    (Punctuator::Bar, "Bar"),
    (Punctuator::Exclamation, "Exclamation"),
    (Punctuator::Assign, "Assign"),
    (Punctuator::Less, "Less"),
    (Punctuator::Greater, "Greater"),
    (Punctuator::Increment, "Increment"),
    (Punctuator::Decrement, "Decrement"),
    (Punctuator::ShiftLeft, "ShiftLeft"),
    (Punctuator::ShiftRight, "ShiftRight"),
    (Punctuator::LessOrEqual, "LessOrEqual"),
    (Punctuator::GreaterOrEqual, "GreaterOrEqual"),
    (Punctuator::Equal, "Equal"),
    (Punctuator::NotEqual, "NotEqual"),
    (Punctuator::LogicalAnd, "LogicalAnd"),
    (Punctuator::LogicalOr, "LogicalOr"),
    (Punctuator::PlusAssign, "PlusAssign"),
    (Punctuator::MinusAssign, "MinusAssign"),
    (Punctuator::StarAssign, "StarAssign"),
    (Punctuator::SlashAssign, "SlashAssign"),
    (Punctuator::PercentAssign, "PercentAssign"),
    (Punctuator::ShiftLeftAssign, "ShiftLeftAssign"),
    (Punctuator::ShiftRightAssign, "ShiftRightAssign"),
    (Punctuator::AmpersandAssign, "AmpersandAssign"),
    (Punctuator::CaretAssign, "CaretAssign"),
    (Punctuator::BarAssign, "BarAssign"),
    (Punctuator::Dot, "Dot"),
    (Punctuator::Ellipsis, "Ellipsis"),
    (Punctuator::Arrow, "Arrow"),
];

fn name_of<T: Copy + PartialEq>(names: &[(T, &'static str)], wanted: T) -> &'static str {
    for (named, name) in names {
        if *named == wanted {
            return *name;
        }
    }
    "no name"
}

// The places and the kinds of a text's tokens, or its refusal.
fn shown(alloc: Global, text: &[u8]) -> Result<String, Fail> {
    let tokens = match lex(alloc, text) {
        Ok(tokens) => tokens,
        Err(LexError::Lexical { kind, at }) => {
            return Ok(format!(in alloc; "lexical {kind} at {at}")?);
        }
        Err(LexError::Memory) => return Ok(format!(in alloc; "memory")?),
    };
    let mut out = String::new(alloc);
    for token in &tokens {
        if !out.is_empty() {
            out.push_str(", ")?;
        }
        let at = token.at;
        match token.kind {
            Kind::Keyword(k) => write!(out, "{at} {}", name_of(&KEYWORDS, k))?,
            Kind::Punctuator(p) => write!(out, "{at} {}", name_of(&PUNCTUATORS, p))?,
            Kind::Constant { ty, value } => write!(out, "{at} {value} {ty:?}")?,
            Kind::Character(value) => write!(out, "{at} Character {value}")?,
            Kind::Name => write!(out, "{at} Name")?,
            Kind::TypeName => write!(out, "{at} TypeName")?,
            Kind::StringLiteral => write!(out, "{at} StringLiteral")?,
            Kind::Floating => write!(out, "{at} Floating")?,
            Kind::Directive => write!(out, "{at} Directive")?,
            Kind::End => write!(out, "{at} End")?,
        }
    }
    Ok(out)
}

#[test]
fn each_form_of_token(rt: HostRuntime) -> Result<(), Fail> {
    for (text, expected) in &TOKENS {
        assert!(rt; shown(rt.alloc(), *text)?.as_str() == *expected);
    }
    Ok(())
}

#[test]
fn each_refusal(rt: HostRuntime) -> Result<(), Fail> {
    for (text, expected) in &REFUSED {
        assert!(rt; shown(rt.alloc(), *text)?.as_str() == *expected);
    }
    Ok(())
}

const SPANS: [(usize, usize); 7] = [
    (5, 8),
    (9, 10),
    (10, 11),
    (12, 18),
    (18, 19),
    (20, 26),
    (26, 26),
];

#[test]
fn a_token_is_a_slice(rt: HostRuntime) -> Result<(), Fail> {
    let text = b"/* */int x= 0x1fUL;\n\"a\\\"b\"";
    let tokens = lex(rt.alloc(), text).ok().ok_or("no tokens")?;
    assert!(rt; tokens.len() == SPANS.len());
    for (token, (start, end)) in tokens.iter().zip(&SPANS) {
        assert!(rt; token.start == *start);
        assert!(rt; token.end == *end);
    }
    Ok(())
}
