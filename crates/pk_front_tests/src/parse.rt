// Texts of C, their trees apart: what is accepted, and where the others are refused.

use pk_ast::{BlockItem, Statement};
use pk_ctypes::{Construct, Pos};
use pk_lex::lex;
use pk_parse::{ParseError, parse};
use std::alloc::Global;
use std::test::Fail;

// A million statements take little memory.
const _: () = prove!(size_of::<Statement>() <= 112);

const _: () = prove!(size_of::<BlockItem>() <= 120);

// Why a text has no tree.
fn refused(alloc: Global, text: &str) -> Result<Option<ParseError>, Fail> {
    let tokens = lex(alloc, text.as_bytes())?;
    Ok(parse(alloc, tokens.as_slice()).err())
}

fn syntax(column: u64) -> Option<ParseError> {
    if column == 0 {
        None
    } else {
        Some(ParseError::Syntax {
            at: Pos { line: 1, column },
        })
    }
}

// Texts, and the column at which each is a syntax error, or 0.
const TEXTS: [(&str, u64); 56] = [
    ("", 0),
    ("}", 1),
    ("int x", 6),
    ("int x = {1, 2,};", 0),
    ("int a[2]={{1},{2}};", 0),
    ("int a[2]={{1,2,},3,{4},};", 0),
    ("int a[2]={{{1}}};", 12),
    ("int a[2]={{}};", 12),
    ("int a[2]={{,}};", 12),
    ("int a[2]={{1},,};", 15),
    ("int a[2]={{1}{2}};", 14),
    ("int a[2]={{1;}};", 13),
    ("int a[2]={{1}", 14),
    ("int x = {,};", 10),
    ("int x = {};", 10),
    ("int x[1,2];", 8),
    ("int x[a=1];", 8),
    ("int f(void,int);", 0),
    ("int f(int,);", 11),
    ("static int x; extern int g(int, const char c);", 0),
    ("int f(void){return 0;} int", 27),
    ("int f(int a){-(int)a=3;}", 0),
    ("int f(int a){++-(int)a=3;}", 0),
    ("int f(int a){switch(a){case a, b:;}}", 30),
    ("int f(int a){a:;(a):;}", 20),
    ("int f(int a){for(int i;;);}", 0),
    ("int f(int a){for(;);}", 19),
    ("int f(int a){for(;;}", 20),
    ("int f(int a){return (int)(char)1;}", 0),
    ("int f(int a){{}", 16),
    ("int main(void){int i=0;", 24),
    ("int f(const void);", 0),
    ("int f(void x);", 0),
    ("int f(void void);", 0),
    ("int f();", 0),
    ("int f(int,int b){}", 0),
    ("extern int a[2]={1,2},b=3,c;", 0),
    ("int a b;", 7),
    ("int (x);", 5),
    ("int f(void) int;", 13),
    ("static extern int x;", 8),
    ("int static x;", 5),
    ("int f(int static x);", 11),
    ("int f(int b[3]);", 0),
    ("int f(int[3],int c[1?2:3],int d){}", 0),
    ("int f(void[3]);", 0),
    ("int f(int b[1,2]);", 14),
    ("int f(int b[a=1]);", 14),
    ("int f(int b[3)", 14),
    ("int f(int b[3]c);", 15),
    ("int f(int[3]b);", 13),
    ("int f(int b[3]=0);", 15),
    ("int f(int b[3", 14),
    ("int f(enum[2]);", 11),
    ("int f([2]);", 7),
    ("int x=1,;", 9),
];

#[test]
fn texts(rt: HostRuntime) -> Result<(), Fail> {
    for row in &TEXTS {
        let (text, column) = *row;
        assert!(rt; refused(rt.alloc(), text)? == syntax(column), "{text}");
    }
    Ok(())
}

// Texts with enumerations, and the column at which each is a syntax error, or 0.
const ENUMERATIONS: [(&str, u64); 60] = [
    ("enum e{A};", 0),
    ("enum{A,};", 0),
    ("enum{A=1,B}x,y[2];", 0),
    ("enum{};", 6),
    ("enum{,};", 6),
    ("enum{A,,};", 8),
    ("enum{A B};", 8),
    ("enum{A=};", 8),
    ("enum{A=1,2};", 10),
    ("enum{A=1=2};", 9),
    ("enum{A=(1,2)};", 0),
    ("enum{A=1?2:3,};", 0),
    ("enum{A", 7),
    ("enum{A,", 8),
    ("enum", 5),
    ("enum;", 5),
    ("enum e;", 7),
    ("enum e x;", 0),
    ("enum e{", 8),
    ("enum e e;", 0),
    ("const enum const{A};", 12),
    ("const enum e const x;", 0),
    ("enum const e x;", 6),
    ("const enum e{A}const;", 0),
    ("enum e{A}const const x;", 0),
    ("enum e{A}e;", 0),
    ("enum e{A}int;", 10),
    ("enum e{A}f(void);", 11),
    ("enum e f(void);", 0),
    ("enum e f(enum e,enum e x);", 0),
    ("int f(enum);", 11),
    ("int f(enum,int);", 11),
    ("int f(enum{A}x);", 11),
    ("int f(enum e{A}x);", 13),
    ("int enum e x;", 5),
    ("enum e int x;", 8),
    ("enum enum e x;", 6),
    ("unsigned enum{A};", 10),
    ("static enum{A};", 0),
    ("extern enum e{A}x;", 0),
    ("static enum e x;", 0),
    ("enum{A}x=1,;", 12),
    ("typedef enum{A}T;", 0),
    ("typedef enum e{A}T,U;", 0),
    ("typedef enum e T;", 0),
    ("typedef enum{A};", 16),
    ("typedef enum e;", 15),
    ("typedef const enum{A}const T;", 0),
    ("typedef enum{A}T[2];", 17),
    ("int x=(enum e)1;", 0),
    ("int x=(enum)1;", 12),
    ("int x=(enum e{A})1;", 14),
    ("int x=(const enum e const)1;", 0),
    ("int x=enum;", 7),
    ("enum{A[2]};", 7),
    ("enum{A={1}};", 8),
    ("enum{1};", 6),
    ("enum{int};", 6),
    ("enum 1;", 6),
    ("enum(A);", 5),
];

#[test]
fn enumerations(rt: HostRuntime) -> Result<(), Fail> {
    for row in &ENUMERATIONS {
        let (text, column) = *row;
        assert!(rt; refused(rt.alloc(), text)? == syntax(column), "{text}");
    }
    Ok(())
}

// What stands in a body behind some declarations, and the column at which it is a syntax error, or 0.
const BODIES: [(&str, u64); 164] = [
    ("a+b=3;", 4),
    ("a?b:a=3;", 6),
    ("(int)a=3;", 7),
    ("++(int)a;", 4),
    ("t[1]++[2];", 7),
    ("main()();", 7),
    ("main(,);", 6),
    ("main(a,);", 8),
    ("(a)[1];", 4),
    ("(int){1};", 6),
    ("M:int x;", 3),
    ("M:}", 3),
    ("int f(void);", 6),
    ("int x=();", 8),
    ("int x[2]={};", 11),
    ("int x[1,2];", 8),
    ("for(;;)int x;", 8),
    ("if(a)int x;", 6),
    ("else;", 1),
    ("if(a);else;else;", 12),
    ("a b;", 3),
    ("extern int q;", 1),
    ("a ?: b;", 4),
    ("goto 1;", 6),
    ("case 1;", 7),
    ("case :;", 6),
    ("(int)*a;", 6),
    ("a && b = 3;", 8),
    ("a = b ? 1 : 2 = 3;", 15),
    ("a==b=3;", 5),
    ("for(int i=0) ;", 12),
    ("for(a;b);", 8),
    ("do;while(a)}", 12),
    ("int ;", 5),
    ("int int ;", 9),
    ("const =3;", 7),
    ("int x, int y;", 8),
    ("(a;", 3),
    ("(int;", 5),
    ("a++ b;", 5),
    ("int x[2]={1,,};", 13),
    ("for(int i=0,j=1;i<j;i++,j--);", 0),
    ("for(;;){break;}", 0),
    ("do a--;while(a);", 0),
    ("if(a)while(b)if(t[0]);else;else;", 0),
    ("a?b:t[0]?1:2;", 0),
    ("a=b=t[1]+=2;", 0),
    ("a-b-1;", 0),
    ("a*b+1<<2&3;", 0),
    ("-+~!a;", 0),
    ("(unsigned char)a;", 0),
    ("(int)(a);", 0),
    ("(a)+b;", 0),
    ("sw:case 1:;", 0),
    ("switch(a){default:case 2:break;}", 0),
    ("main(a,b);", 0),
    ("main(a b);", 8),
    ("{int x;{int y;}}", 0),
    ("{int x;x=1;int y;}", 0),
    ("int;", 4),
    ("unsigned;", 9),
    ("a=;", 3),
    ("=a;", 1),
    ("(;", 2),
    ("a);", 2),
    ("t[;", 3),
    ("1 2;", 3),
    ("a'b';", 2),
    ("'b'++;", 0),
    ("a++=3;", 0),
    ("++a=3;", 0),
    ("-a=3;", 0),
    ("(int)a++;", 0),
    ("a++ ++;", 0),
    ("a?b;", 4),
    ("a:;", 0),
    ("1:;", 2),
    ("goto a", 14),
    ("goto;", 5),
    ("break a;", 7),
    ("continue", 16),
    ("case 1+1:;", 0),
    ("case 1?2:3:;", 0),
    ("case a=1:;", 7),
    ("default a:;", 9),
    ("while a;", 7),
    ("while(a", 15),
    ("while(a);", 0),
    ("for(a;b;a)", 0),
    ("for(int;;);", 8),
    ("if a;", 4),
    ("int x={{1}};", 0),
    ("t[1](2);", 5),
    ("x={1};", 3),
    ("(a)=3;", 0),
    ("((t[0]))++;", 0),
    ("a=b,b=a;", 0),
    ("a=b?a:b;", 0),
    ("a&&a++;", 0),
    ("t[a]=t[b];", 0),
    ("t[t[0]]=1;", 0),
    ("int x=x;", 0),
    ("int x[1048576];", 0),
    ("switch(a){case 1:;case 2:;default:;}", 0),
    ("{M:;}goto M;", 0),
    ("goto M;{M:;}", 0),
    ("int main;", 0),
    ("if(a)if(b);else;else;", 0),
    ("int const unsigned x;", 0),
    ("long int long unsigned y;", 0),
    (";;", 0),
    ("x:y:z:;", 0),
    ("t[t[0]++]++;", 0),
    ("(void)0,a;", 0),
    ("a='\\x41';", 0),
    ("int x[2]={1,2,};", 0),
    ("a=(1,2)+(0&&1/0);", 0),
    ("int int x;", 0),
    ("static int q;", 0),
    ("static int q=1,z[2]={1,2};", 0),
    ("const static int q;", 7),
    ("int static q;", 5),
    ("static;", 7),
    ("static static int q;", 8),
    ("static extern int q;", 8),
    ("static a;", 8),
    ("static q=1;", 8),
    ("static if(a);", 8),
    ("static int;", 11),
    ("static int f(void);", 13),
    ("for(static int q;;);", 5),
    ("for(;static int q;);", 6),
    ("if(a)static int q;", 6),
    ("M:static int q;", 3),
    ("{static const int q=3;}", 0),
    ("(static int)a;", 2),
    ("static (a);", 8),
    ("static}", 7),
    ("enum e{A};", 0),
    ("enum{A}x=A;", 0),
    ("enum{A,B,}x,y;", 0),
    ("static enum{A};", 15),
    ("static enum{A}x=1;", 0),
    ("static enum e{A}const x;", 0),
    ("static enum e x;", 0),
    ("for(enum{A};;);", 0),
    ("for(enum{A}i=A;i;);", 0),
    ("for(enum e i;;);", 0),
    ("for(static enum{A}i;;);", 5),
    ("if(a)enum{A};", 6),
    ("M:enum{A};", 3),
    ("enum{A}f(void);", 9),
    ("enum{A}(x);", 8),
    ("enum{A}+1;", 8),
    ("enum{A}}", 8),
    ("a=(enum e)b;", 0),
    ("a=(enum e{A})b;", 10),
    ("a=(enum)b;", 8),
    ("enum e;", 7),
    ("enum{a=1,b=a};", 0),
    ("{enum e{A};enum e x=A;}", 0),
    ("const enum{A}const;", 0),
    ("enum{A;", 7),
    ("enum{A)", 7),
];

#[test]
fn bodies(rt: HostRuntime) -> Result<(), Fail> {
    let front = "int main(void){int a=1;int b=1;int t[3]={0};";
    for row in &BODIES {
        let (body, column) = *row;
        let text = format!(in rt.alloc(); "{front}{body}return 0;}}")?;
        let at = if column == 0 {
            0
        } else {
            column.saturating_add(44)
        };
        assert!(rt; refused(rt.alloc(), text.as_str())? == syntax(at), "{body}");
    }
    Ok(())
}

// A construct that isn't analysed is told before a syntax error, wherever it stands.
#[test]
fn constructs_come_first(rt: HostRuntime) -> Result<(), Fail> {
    let unsupported = |construct, column| {
        Some(ParseError::Unsupported {
            construct,
            at: Pos { line: 1, column },
        })
    };
    let alloc = rt.alloc();
    assert!(rt; refused(alloc, "float x; int")? == unsupported(Construct::Float, 1));
    assert!(rt; refused(alloc, "} } x = 5 5 \"s\"")? == unsupported(Construct::StringLiteral, 13));
    assert!(rt; refused(alloc, "int f(void){a[1][2][3];}")? == unsupported(Construct::Arrays, 17));
    assert!(rt; refused(alloc, "int a[2][2]={{1},{2}};")? == unsupported(Construct::Arrays, 9));
    assert!(rt; refused(alloc, "int f(int b[3][2]);")? == unsupported(Construct::Arrays, 15));
    assert!(rt; refused(alloc, "int f(int b[],int);")? == unsupported(Construct::Brackets, 13));
    Ok(())
}

// A function whose body has a piece so many times.
fn repeated(
    alloc: Global,
    front: &str,
    piece: &str,
    count: usize,
    back: &str,
) -> Result<Option<ParseError>, Fail> {
    let pieces = piece.repeat(alloc, count)?;
    let text = format!(in alloc; "int f(void){{{front}{pieces}{back}}}")?;
    refused(alloc, text.as_str())
}

// A parameter whose length begins with so many parentheses.
fn parameter_length(alloc: Global, count: usize) -> Result<Option<ParseError>, Fail> {
    let pieces = "(".repeat(alloc, count)?;
    let text = format!(in alloc; "int f(int b[{pieces})")?;
    refused(alloc, text.as_str())
}

// What is repeated in a body, how often it may be, what stands behind it, and the column of the token that is nested too deep with one more.
const DEEP: [(&str, &str, usize, &str, u64); 9] = [
    ("return ", "(int)", 126, "0;", 650),
    ("return ", "0+", 126, "0;", 273),
    ("return ", "0*0-", 63, "0;", 273),
    ("return ", "- ", 126, "0;", 272),
    ("return ", "0?1:", 126, "0;", 525),
    ("return ", "0,", 126, "0;", 273),
    ("", "if(1);else ", 63, ";", 708),
    ("", "x:", 126, ";", 267),
    ("int x;", "x=", 126, "0;", 272),
];

// The greatest nesting, and the place of the first token that passes it.
#[test]
fn deep_texts(rt: HostRuntime) -> Result<(), Fail> {
    let deep = |column| {
        Some(ParseError::Nesting {
            at: Pos { line: 1, column },
        })
    };
    let alloc = rt.alloc();
    for row in &DEEP {
        let (front, piece, count, back, column) = *row;
        assert!(rt;
            repeated(alloc, front, piece, count, back)?.is_none(),
            "{piece}"
        );
        let more = count + 1;
        assert!(rt;
            repeated(alloc, front, piece, more, back)? == deep(column),
            "{piece}"
        );
    }
    assert!(rt; repeated(alloc, "return ", "(", 126, ")")? == syntax(146));
    assert!(rt; repeated(alloc, "return ", "(", 127, ")")? == deep(146));
    assert!(rt; parameter_length(alloc, 126)? == syntax(139));
    assert!(rt; parameter_length(alloc, 127)? == deep(139));
    Ok(())
}
