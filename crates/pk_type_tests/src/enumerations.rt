// Enumerations: texts, and the rule that fails first in each with its place, or nothing, of the reference implementation; and, worked by hand, the values of
// enumerators and the objects that their names hide.

use crate::statics::tell;
use crate::typing::{is_told, typed};
use pk_typed::{Body, Declared, Item, Statement, Unit, Variable};
use std::fmt::Write;
use std::test::Fail;

// A text in each line, and behind an arrow what is refused of it.
const TABLES: [&str; 5] = [
    "enum e{A,B,C};int x=C;
enum{A};int x[A]; => constant 1:15
enum{A,B,C};int x[C];
enum{A,};
enum{A,A}; => redeclared 1:8
enum{A,B,A}; => redeclared 1:10
enum{A};enum{A}; => redeclared 1:14
enum{A};int A; => redeclared 1:13
int A;enum{A}; => redeclared 1:12
int A(void);enum{A}; => redeclared 1:18
typedef int A;enum{B,A2}x;
enum e{A};enum e{B}; => redeclared 1:16
enum e{A};enum f{B};enum e x;
enum e{A};int e;
int e;enum e{A};
enum e{e};
enum e{e,e}; => redeclared 1:10
enum e x; => undeclared 1:6
enum e f(void); => undeclared 1:6
int f(enum e); => undeclared 1:12
int f(enum e p); => undeclared 1:12
enum e{A};enum e f(enum e p){return p;}
int x=(enum e)1; => undeclared 1:13
enum e{A};int x=(enum e)1;
enum e{A=(enum e)1};
enum{A=A}; => undeclared 1:8
int A;int f(void){enum{A=A};return 0;} => constant 1:26
enum{A,B=A};
enum{A,B=A+1,C=B*2};int x[C];
enum{A=B,B}; => undeclared 1:8
enum{A=2147483647};
enum{A=2147483647,B}; => constant 1:19
enum{A=2147483647,B,C,D}; => constant 1:19
enum{A=2147483647,B=0,C};
enum{A=2147483648}; => constant 1:8
enum{A=2147483648,B,C}; => constant 1:8",
    "enum{A=4294967295u}; => constant 1:8
enum{A=-2147483648};
enum{A=-2147483648,B};
enum{A=-2147483649}; => constant 1:8
enum{A=2147483647+1}; => constant 1:8
enum{A=2147483646,B,C}; => constant 1:21
enum{A=1/0}; => constant 1:8
enum{A=1/0,B}; => constant 1:8
enum{A=0&&1/0};
enum{A=1?2:1/0};
enum{A=(1,2)};
enum{A='a',B};int x[B-97];
enum{A=300,B=(char)300};int x[B-43];
int x;enum{A=x}; => constant 1:14
const int x=1;enum{A=x}; => constant 1:22
int f(void);enum{A=f()}; => constant 1:20
void v(void);enum{A=v()}; => void 1:21
int t[3];enum{A=t}; => array 1:17
int t[3];enum{A=t[0]}; => constant 1:17
int x;enum{A=x++}; => constant 1:14
enum{A=u}; => undeclared 1:8
enum{A=u,B,C}; => undeclared 1:8
enum{A=(int int)1}; => specifiers 1:9
enum{A=u(1)}; => undeclared 1:8
enum{abort}; => special 1:6
enum{A,abort,B}; => special 1:8
enum{abort=1/0}; => special 1:6
enum abort{A};
enum __VERIFIER_assume{A};
enum{__VERIFIER_nondet_int=3}; => special 1:6
enum{A};int x=A(); => undeclared 1:15
enum{A};void f(void){A=1;} => place 1:23
enum{A};void f(void){A++;} => place 1:23
enum{A};void f(void){++A;} => place 1:22
enum{A};void f(void){A+=1;} => place 1:23
enum{A};void f(void){A[0];} => array 1:22",
    "enum{A};void f(void){A;}
enum{A};void f(void){A();} => undeclared 1:22
enum{A};void f(void){switch(1){case A:;case 0:;}} => jump 1:40
enum{A,B};void f(void){switch(1){case A:;case B:;}}
enum{A};static int x=A;
extern enum{A};
static enum{A};
extern enum{A}x; => extern 1:15
extern enum{A=1/0}x; => constant 1:15
static enum{A}x;
extern enum e x; => undeclared 1:13
enum{A}x=A,y[2]={A,A};
enum{A}A; => redeclared 1:8
enum{A}x,A; => redeclared 1:10
enum{A}x={A}; => array 1:8
enum{A}x[A]; => constant 1:10
enum{A,B}x[B];
const enum{A}x=A;void f(void){x=1;} => const 1:32
enum{A}const x=A;void f(void){x=1;} => const 1:32
const enum e{A}const x=A;void f(void){x=1;} => const 1:40
enum e{A};const enum e x=A;void f(void){x=1;} => const 1:42
enum e{A};enum e const x=A;void f(void){x=1;} => const 1:42
const enum e{A}x=A;enum e y;void f(void){y=1;}
enum e{A}x;void f(void){x=5;}
typedef enum{A}t;t x=A;
typedef enum e{A}t;t x=A;enum e y;
typedef const enum{A}t;t x;void f(void){x=1;} => const 1:42
typedef enum{A}const t;t x;void f(void){x=1;} => const 1:42
typedef enum{A}A; => redeclared 1:16
typedef enum{A=1/0}t; => constant 1:16
typedef enum e t; => undeclared 1:14
typedef enum{A,B}t,A; => redeclared 1:20
typedef enum{A=f()}t;int f(void); => undeclared 1:16
int f(void);typedef enum{A=f()}t; => constant 1:28
int main(void){enum{A};enum{A};} => redeclared 1:29
int main(void){enum{A};{enum{A};}}",
    "int main(void){enum e{A};enum e{B};} => redeclared 1:31
int main(void){enum e{A};{enum e{B};}}
int main(void){enum e{A};{enum e x;}}
int main(void){{enum e{A};}enum e x;} => undeclared 1:33
int main(void){{enum{A};}return A;} => undeclared 1:33
enum e{A};int main(void){enum e{B};return A+B;}
enum e{A};int main(void){enum e x;return x;}
int main(void){int x;enum{x};} => redeclared 1:27
int main(void){enum{x};int x;} => redeclared 1:28
int main(void){int x;{enum{x};x=1;}} => place 1:32
int main(void){int x;{enum{x};return x;}}
int main(void){int x=3;{enum{y=x};return y;}} => constant 1:32
int f(int p){enum{p};return p;} => redeclared 1:19
int f(int p){{enum{p};return p;}}
int f(int p){enum p{q};return p;}
int main(void){for(enum{A,B}i=A;i<B;i++);}
int main(void){for(enum{A}A=1;;);} => redeclared 1:27
int main(void){for(enum e{A}i=A;;){enum e x;}}
int main(void){for(enum e i;;);} => undeclared 1:25
int main(void){int i;for(enum{i}x=i;;);}
int main(void){static enum{A}x=A;return x;}
int main(void){static enum e{A}x=A;enum e y=x;return y;}
int main(void){static enum{A=1/0}x;return 0;} => constant 1:30
int main(void){static enum{A,A}x;return 0;} => redeclared 1:30
int main(void){enum{abort};} => special 1:21
int main(void){int abort2;enum{A=abort2};} => constant 1:34
int main(void){goto l;enum{A};l:;} => jump 1:21
int main(void){switch(1){enum{A};case 1:;}} => jump 1:34
int main(void){goto l;enum{A}x;l:;} => jump 1:21
int main(void){enum{A=1,B=A<<1,C=A|B};int x[C];x[2]=1;return 0;}
enum{A=-1,B};int x[B+1];
enum{A=-1};int x[A]; => constant 1:18
enum{A=1u};int x;void f(void){x=A<0;}
enum{A=1l<<40}; => constant 1:8
enum{A=1l<<20};
enum{A=!0,B=~0};int x[B+2];",
    "enum{A=1==1,B};int x[B];
enum{A}f;int x=A;
enum e{A};enum e x,y=A,z[2];
enum e{A};enum e x,x; => redeclared 1:20
enum{main};int main(void){return 0;} => redeclared 1:16
int main(void){return 0;}enum{main}; => redeclared 1:31
enum{A};int f(int A){return A;}
enum{A};int f(int A){A=1;return A;}
enum{A};int A(void){return 0;} => redeclared 1:13
typedef int t;enum{B=(t)3};int x[B];
enum{A=1,B};int x[2]={A,B,A}; => initialiser 1:27
enum{A=1,B};int x=A+B,y[B]={1,2};
enum{A=2147483647};int x=A+1; => constant 1:26
enum{A=2147483647};long x=A+1l;
enum{A=B};enum{B}; => undeclared 1:8
enum{A=1,B=A/0,C}; => constant 1:12
enum{A=1 +u}; => constant 1:8
int x=1;enum{A=1 +x}; => constant 1:16
enum{A=2147483647,A}; => redeclared 1:19
enum{A=2147483647,abort}; => constant 1:19
int main(void){L:;enum{L};goto L;}
enum e{A};void v(void);void f(void){enum e x=v();} => void 1:46
enum{A=1};int t[A]={1,2}; => initialiser 1:23",
];

#[test]
fn enumerations(rt: HostRuntime) -> Result<(), Fail> {
    for table in &TABLES {
        for line in table.split('\n') {
            let (text, wanted) = line.split_once(" => ").unwrap_or((line, ""));
            assert!(rt; is_told(rt.alloc(), text, wanted)?, "{text}");
        }
    }
    Ok(())
}

const VALUED: &str =
    "enum{A,B=5,C,D=-3,E,F=A,G,H='a'+1,I=2147483647,J=-2147483647-1,K};enum e{L=B*C,M};int t[9]={A,B,C,D,E,F,G,H,I};int j=J,k=K,l=L,m=M;";

const VALUES: &str = "t=[9]0,5,6,-3,-2,0,1,98,2147483647, j=-2147483648 k=-2147483647 l=30 m=31 ";

#[test]
fn values(rt: HostRuntime) -> Result<(), Fail> {
    let alloc = rt.alloc();
    let unit = typed(alloc, VALUED.as_bytes())?.ok();
    let mut told = String::new(alloc);
    if let Some(unit) = &unit {
        for object in &unit.objects {
            tell(object, &mut told)?;
        }
    }
    assert!(rt; told.as_str() == VALUES, "{told}");
    Ok(())
}

// An object of the file, a parameter, a static object and one of the function are hidden; a name that stands for none, a function's and an enumerator's hide nothing.
const HIDING: &str =
    "int x;enum{e};int f(int p){static int s;int l;{enum{x,p,s,l,n,f,e}i=l;enum{o};return i;}}";

const HIDDEN: &str = "file 0 1:53 local 0 1:55 file 1 1:57 local 1 1:59 object 2 1:67 ";

fn tell_declared(declared: &Declared, told: &mut String) -> Result<(), Fail> {
    match declared {
        Declared::Hiding(Variable::File(number), at) => write!(told, "file {number} {at} ")?,
        Declared::Hiding(Variable::Local(number), at) => write!(told, "local {number} {at} ")?,
        Declared::Scalar(number, at, _) => write!(told, "object {number} {at} ")?,
        _ => {}
    }
    Ok(())
}

// The declarations of the first block in a body.
fn tell_block(body: &Body, told: &mut String) -> Result<(), Fail> {
    for item in &body.items {
        if let Item::Statement(statement) = item {
            if let Some(items) = items_of(statement) {
                for inner in items {
                    if let Item::Declared(declared) = inner {
                        tell_declared(declared, told)?;
                    }
                }
            }
        }
    }
    Ok(())
}

fn items_of(statement: &Statement) -> Option<&[Item]> {
    match statement {
        Statement::Block(_, items) => Some(items),
        _ => None,
    }
}

fn tell_hidden(unit: &Unit, told: &mut String) -> Result<(), Fail> {
    for function in &unit.functions {
        if let Some(body) = &function.body {
            tell_block(body, told)?;
        }
    }
    Ok(())
}

#[test]
fn hidden(rt: HostRuntime) -> Result<(), Fail> {
    let alloc = rt.alloc();
    let unit = typed(alloc, HIDING.as_bytes())?.ok();
    let mut told = String::new(alloc);
    if let Some(unit) = &unit {
        tell_hidden(unit, &mut told)?;
    }
    assert!(rt; told.as_str() == HIDDEN, "{told}");
    Ok(())
}
