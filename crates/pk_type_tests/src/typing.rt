// Typing: texts, and the rule that fails first in each with its place, or nothing. From the reference implementation and from worked cases.

ghost use Rattle.std.specs.Prelude.{IfOk};
ghost use Rattle.pk_front.specs.Texts.{HasTokens};

use pk_lex::{Token, lex};
use pk_parse::parse;
use pk_type::{Refusal, check};
use pk_typed::Unit;
use pk_typenames::mark;
use std::alloc::Global;
use std::test::Fail;

// A refusal as it is printed; nothing where there is none.
fn printed(alloc: Global, refusal: Option<Refusal>) -> Result<String, Fail> {
    let text = match refusal {
        None => String::new(alloc),
        Some(Refusal::Type { rule, at }) => format!(in alloc; "{rule} {at}")?,
        Some(Refusal::Memory) => format!(in alloc; "memory")?,
    };
    Ok(text)
}

// The tokens of a text, with its type names marked.
fn marked(alloc: Global, text: &[u8]) -> Result<Vec<Token>, Fail>
    ensures { IfOk result (λ tokens. HasTokens text.now tokens.items) }
{
    let mut tokens = lex(alloc, text)?;
    mark(alloc, text, &mut tokens)?;
    Ok(tokens)
}

// The typed tree of a text, or what typing refuses.
pub(crate) fn typed(alloc: Global, text: &[u8]) -> Result<Result<Unit, Refusal>, Fail> {
    let tokens = marked(alloc, text)?;
    pk_parse::tokens_are_ended();
    let unit = parse(alloc, &tokens)?;
    Ok(check(alloc, text, &unit))
}

// What typing refuses of a text.
fn answer(alloc: Global, text: &[u8]) -> Result<Option<Refusal>, Fail> {
    let unit = typed(alloc, text)?;
    Ok(unit.err())
}

// A text in each line, and behind an arrow what is refused of it.
const TABLES: [&str; 17] = [
    // On names of types.
    "const x; => specifiers 1:1
char int x; => specifiers 1:1
int int x; => specifiers 1:1
long long long x; => specifiers 1:1
short long x; => specifiers 1:1
void int x; => specifiers 1:1
signed unsigned x; => specifiers 1:1
long unsigned int long x;
int const short signed x;
void const f(void);
signed char x;
unsigned const x;
short char x; => specifiers 1:1
int f(int int a); => specifiers 1:7
int int f(void); => specifiers 1:1
const const const x; => specifiers 1:1
long char x; => specifiers 1:1
void unsigned f(void); => specifiers 1:1
int main(void){(char int)1;} => specifiers 1:17
int main(void){return (int int)3;} => specifiers 1:24
int main(void){(const)1;} => specifiers 1:17
int main(void){for(int int i;;);} => specifiers 1:20
int main(void){int long long x;}
int main(void){{const x;}} => specifiers 1:17",
    // On second declarations.
    "int f(int);int f(int int,int); => specifiers 1:18
int f(int);int f(void x); => void 1:23
int f(int,int);int f(void x); => void 1:27
int f(int);int x(int int);int f(int,int int); => specifiers 1:18
int x;int x; => redeclared 1:11
int x,x; => redeclared 1:7
int f(void);int x;int f(void);
int f(int);int f(long); => redeclared 1:16
int f(const int);int f(int);
char f(void);signed char f(void); => redeclared 1:26
int f(void){}int f(void){} => redeclared 1:18
int f(void);int f(void){}int f(void);
int f;int f(void); => redeclared 1:11
int f(void);int f; => redeclared 1:17
int f(int a,int a); => redeclared 1:17
int f(int a){int a;} => redeclared 1:18
int f(int a){{int a;}}
static int f(void);extern int f(void);
int f(void);int f(int); => redeclared 1:17
void f(void);int f(void); => redeclared 1:18
extern int x,x; => extern 1:12
int main(void){int x;int x;} => redeclared 1:26
int main(void){int x;{int x;}}
int main(void){for(int i;;){int i;}}
int main(void){int i;for(int i;;);}
int main(void){for(int i,i;;);} => redeclared 1:26
int main(void){int main;}",
    // On static objects of functions.
    "int f(void){static int n=0;n=n+1;return n;}int main(void){return f();}
int main(void){static int x;return x;}
int main(void){static int x=1,y=x;return y;} => constant 1:33
int main(void){static int x=x;return x;} => constant 1:29
int main(void){int a=1;static int x=a;return x;} => constant 1:37
int main(void){static int x=1/0;return x;} => constant 1:29
int f(void);int main(void){static int x=f();return x;} => constant 1:41
int main(void){static int t[3]={1,2,3};return t[2];}
int main(void){static int t[3]={1,2,3,4};return t[2];} => initialiser 1:39
int main(void){static int t[3]=1;return 0;} => array 1:27
int main(void){static int x={1};return 0;} => array 1:27
int main(void){static int t[0];return 0;} => constant 1:29
int a;int main(void){static int t[a];return 0;} => constant 1:35
int main(void){static void x;return 0;} => void 1:28
int main(void){static int x;int x;return 0;} => redeclared 1:33
int main(void){int x;static int x;return 0;} => redeclared 1:33
int main(void){int x;{static int x;}return 0;}
int main(void){static int abort;return 0;} => special 1:27
int main(void){static int int x;return 0;} => specifiers 1:23
int main(void){static const int x=3;x=4;return 0;} => const 1:38
int main(void){static const int x=3;return x;}
int main(void){goto l;static int x=1;l:return x;} => jump 1:21
int main(void){switch(1){static int x=1;case 1:return x;}return 0;} => jump 1:41
int f(int x){static int x;return x;} => redeclared 1:25
int main(void){static int x=1+2*3,t[2]={-1};return x+t[0];}
int main(void){static int t[2]={1,t[0]};return 0;} => constant 1:35
int main(void){static unsigned char x=300;return x;}
int main(void){{static int x;}return x;} => undeclared 1:38
int x;int main(void){static int x=1;return x;}
int main(void){static int x=2147483648;return x;}
int main(void){static int x=2147483647+1;return x;} => constant 1:29
int main(void){static int x;return x++ + x;} => unsequenced 1:40
int x;int main(void){static int y;return (y=1)+(x=2);}
int main(void){static int x=(0,1);return 0;}
int main(void){static int x=y;return 0;} => undeclared 1:29
int main(void){static long long x=1;static int y=1;return x+y;}
int main(void){static int main;return main;}",
    // On extern.
    "extern int x; => extern 1:12
extern int x=1; => extern 1:12
extern int f(void);
extern int x[3]; => extern 1:12
int y;extern int x,y; => extern 1:18
extern void x; => extern 1:13
extern int abort; => extern 1:12
extern int x={1}; => extern 1:12",
    // On names in scope.
    "int x=y; => undeclared 1:7
int f(void){return x;}int x; => undeclared 1:20
int f(void){return f;} => undeclared 1:20
int f(void){return f[1];} => undeclared 1:20
int x;int f(void){return x();} => undeclared 1:26
int f(void){return g();}int g(void){return 1;} => undeclared 1:20
int f(void){int f;return f();} => undeclared 1:26
int f(void){return f();}
int x[y]; => undeclared 1:7
int f(int a){{int a=a;}return a;}
int main(void){int u[u];} => undeclared 1:22
int main(void){{int x;}x;} => undeclared 1:24
int main(void){for(int i;;);i;} => undeclared 1:29
int main(void){x=1;} => undeclared 1:16
int main(void){++x;} => place 1:16
int main(void){x++;} => undeclared 1:16
int main(void){goto x;} => label 1:21
int main(void){int x=x;}
int main(void){x[1];} => undeclared 1:16
int main(void){x[y]=z;} => undeclared 1:16
int main(void){main=1;} => undeclared 1:16
int main(void){main[0]=1;} => undeclared 1:16",
    // On void values.
    "void x; => void 1:6
void x[3]; => void 1:6
int f(void a); => void 1:12
int f(void,int); => void 1:7
int f(int,void); => void 1:11
int f(void a,void b); => void 1:12
void x=1; => void 1:6
void f(void);int x=f(); => void 1:20
int a;int t[3];const int k=1;const int c[2]={1,2};void v(void);int f(int p);int g(int p,int q);void h(void){v()+1;} => void 1:109
int a;int t[3];const int k=1;const int c[2]={1,2};void v(void);int f(int p);int g(int p,int q);void h(void){1+v();} => void 1:111
int a;int t[3];const int k=1;const int c[2]={1,2};void v(void);int f(int p);int g(int p,int q);void h(void){-v();} => void 1:110
int a;int t[3];const int k=1;const int c[2]={1,2};void v(void);int f(int p);int g(int p,int q);void h(void){!v();} => void 1:110
int a;int t[3];const int k=1;const int c[2]={1,2};void v(void);int f(int p);int g(int p,int q);void h(void){v()&&1;} => void 1:109
int a;int t[3];const int k=1;const int c[2]={1,2};void v(void);int f(int p);int g(int p,int q);void h(void){1||v();} => void 1:112
int a;int t[3];const int k=1;const int c[2]={1,2};void v(void);int f(int p);int g(int p,int q);void h(void){v()?1:2;} => void 1:109
int a;int t[3];const int k=1;const int c[2]={1,2};void v(void);int f(int p);int g(int p,int q);void h(void){1?v():2;} => void 1:111
int a;int t[3];const int k=1;const int c[2]={1,2};void v(void);int f(int p);int g(int p,int q);void h(void){1?2:v();} => void 1:113
int a;int t[3];const int k=1;const int c[2]={1,2};void v(void);int f(int p);int g(int p,int q);void h(void){1?v():v();} => void 1:111
int a;int t[3];const int k=1;const int c[2]={1,2};void v(void);int f(int p);int g(int p,int q);void h(void){a=v();} => void 1:111
int a;int t[3];const int k=1;const int c[2]={1,2};void v(void);int f(int p);int g(int p,int q);void h(void){a+=v();} => void 1:112
int a;int t[3];const int k=1;const int c[2]={1,2};void v(void);int f(int p);int g(int p,int q);void h(void){v()=1;} => place 1:112
int a;int t[3];const int k=1;const int c[2]={1,2};void v(void);int f(int p);int g(int p,int q);void h(void){v()+=1;} => void 1:109
int a;int t[3];const int k=1;const int c[2]={1,2};void v(void);int f(int p);int g(int p,int q);void h(void){++v();} => place 1:109
int a;int t[3];const int k=1;const int c[2]={1,2};void v(void);int f(int p);int g(int p,int q);void h(void){v()++;} => void 1:109
int a;int t[3];const int k=1;const int c[2]={1,2};void v(void);int f(int p);int g(int p,int q);void h(void){t[v()];} => void 1:111
int a;int t[3];const int k=1;const int c[2]={1,2};void v(void);int f(int p);int g(int p,int q);void h(void){f(v());} => void 1:111
int a;int t[3];const int k=1;const int c[2]={1,2};void v(void);int f(int p);int g(int p,int q);void h(void){int x=v();} => void 1:115
int a;int t[3];const int k=1;const int c[2]={1,2};void v(void);int f(int p);int g(int p,int q);void h(void){int x[2]={1,v()};} => void 1:121
int a;int t[3];const int k=1;const int c[2]={1,2};void v(void);int f(int p);int g(int p,int q);void h(void){if(v());} => void 1:112
int a;int t[3];const int k=1;const int c[2]={1,2};void v(void);int f(int p);int g(int p,int q);void h(void){while(v());} => void 1:115
int a;int t[3];const int k=1;const int c[2]={1,2};void v(void);int f(int p);int g(int p,int q);void h(void){do;while(v());} => void 1:118
int a;int t[3];const int k=1;const int c[2]={1,2};void v(void);int f(int p);int g(int p,int q);void h(void){for(v();v();v());} => void 1:117
int a;int t[3];const int k=1;const int c[2]={1,2};void v(void);int f(int p);int g(int p,int q);void h(void){switch(v());} => void 1:116
int a;int t[3];const int k=1;const int c[2]={1,2};void v(void);int f(int p);int g(int p,int q);void h(void){(void)v();}
int a;int t[3];const int k=1;const int c[2]={1,2};void v(void);int f(int p);int g(int p,int q);void h(void){(int)v();} => void 1:114
int a;int t[3];const int k=1;const int c[2]={1,2};void v(void);int f(int p);int g(int p,int q);void h(void){(v(),1);}
int a;int t[3];const int k=1;const int c[2]={1,2};void v(void);int f(int p);int g(int p,int q);void h(void){(1,v());}
int a;int t[3];const int k=1;const int c[2]={1,2};void v(void);int f(int p);int g(int p,int q);void h(void){1+(1,v());} => void 1:111
int a;int t[3];const int k=1;const int c[2]={1,2};void v(void);int f(int p);int g(int p,int q);void h(void){v();}
int a;int t[3];const int k=1;const int c[2]={1,2};void v(void);int f(int p);int g(int p,int q);void h(void){return v();} => return 1:109
int a;int t[3];const int k=1;const int c[2]={1,2};void v(void);int f(int p);int g(int p,int q);void h(void){switch(1)case v():;} => void 1:123
int a;int t[3];const int k=1;const int c[2]={1,2};void v(void);int f(int p);int g(int p,int q);void h(void){void x;} => void 1:114
int a;int t[3];const int k=1;const int c[2]={1,2};void v(void);int f(int p);int g(int p,int q);void h(void){{void x[2];}} => void 1:115
int a;int t[3];const int k=1;const int c[2]={1,2};void v(void);int f(int p);int g(int p,int q);void h(void){a=(void)1;} => void 1:111
int a;int t[3];const int k=1;const int c[2]={1,2};void v(void);int f(int p);int g(int p,int q);void h(void){(void)a+1;} => void 1:109",
    // On arrays.
    "int x={1}; => array 1:5
int x[2]=1; => array 1:5
int x={1,2}; => array 1:5
int x[2]={1};
int a;int t[3];const int k=1;const int c[2]={1,2};void v(void);int f(int p);int g(int p,int q);void h(void){t;} => array 1:109
int a;int t[3];const int k=1;const int c[2]={1,2};void v(void);int f(int p);int g(int p,int q);void h(void){t=1;} => array 1:109
int a;int t[3];const int k=1;const int c[2]={1,2};void v(void);int f(int p);int g(int p,int q);void h(void){a[0];} => array 1:109
int a;int t[3];const int k=1;const int c[2]={1,2};void v(void);int f(int p);int g(int p,int q);void h(void){a[0]=1;} => array 1:109
int a;int t[3];const int k=1;const int c[2]={1,2};void v(void);int f(int p);int g(int p,int q);void h(void){t[0];}
int a;int t[3];const int k=1;const int c[2]={1,2};void v(void);int f(int p);int g(int p,int q);void h(void){t+1;} => array 1:109
int a;int t[3];const int k=1;const int c[2]={1,2};void v(void);int f(int p);int g(int p,int q);void h(void){f(t);} => array 1:111
int a;int t[3];const int k=1;const int c[2]={1,2};void v(void);int f(int p);int g(int p,int q);void h(void){return;t;} => array 1:116
int a;int t[3];const int k=1;const int c[2]={1,2};void v(void);int f(int p);int g(int p,int q);void h(void){int x={1};} => array 1:113
int a;int t[3];const int k=1;const int c[2]={1,2};void v(void);int f(int p);int g(int p,int q);void h(void){int x[2]=3;} => array 1:113
int a;int t[3];const int k=1;const int c[2]={1,2};void v(void);int f(int p);int g(int p,int q);void h(void){(t);} => array 1:110
int a;int t[3];const int k=1;const int c[2]={1,2};void v(void);int f(int p);int g(int p,int q);void h(void){t++;} => array 1:109
int a;int t[3];const int k=1;const int c[2]={1,2};void v(void);int f(int p);int g(int p,int q);void h(void){++a[0];} => place 1:109
int a;int t[3];const int k=1;const int c[2]={1,2};void v(void);int f(int p);int g(int p,int q);void h(void){a[t];} => array 1:109
int a;int t[3];const int k=1;const int c[2]={1,2};void v(void);int f(int p);int g(int p,int q);void h(void){t[t];} => array 1:111",
    // On constant expressions.
    "int x[0]; => constant 1:7
int x[1048576];
int x[1048577]; => constant 1:7
int x[-1]; => constant 1:7
int x[1/0]; => constant 1:7
int x[a]; => undeclared 1:7
int a;int x[a]; => constant 1:13
int a=1;int b=a; => constant 1:15
int x=1/0; => constant 1:7
int x=0&&1/0;
int x=1?2:1/0;
int x=1?1/0:2; => constant 1:7
int x=1||1/0;
int x=(1/0,2); => constant 1:7
int x=((void)0,1);
int x=2147483647+1; => constant 1:7
unsigned x=4294967295u+1u;
int x=1<<31; => constant 1:7
int x=1<<32; => constant 1:7
int x=-1<<1; => constant 1:7
int x=5%0; => constant 1:7
int x=(-2147483647-1)/-1; => constant 1:7
int x=f(); => undeclared 1:7
int x=y=1; => undeclared 1:7
int a;int x=a++; => constant 1:13
int x=1 + y; => constant 1:7
int x[2]={1,1/0}; => constant 1:13
int x[3]={1,2,y}; => undeclared 1:15
int x=(int int)3; => specifiers 1:8
int x[(int int)3]; => specifiers 1:8
int x[1/0+(int int)3]; => specifiers 1:12
int x=(char)300;
int x['a'];
int x[3u];
int x=!0+~0;
int f(void);int x=f()+1/0; => constant 1:19
long x=4294967296l*4294967296l; => constant 1:8
int x=1==1;
int x[2147483648u]; => constant 1:7
int a;int t[3];const int k=1;const int c[2]={1,2};void v(void);int f(int p);int g(int p,int q);void h(void){int x[a];} => constant 1:115
int a;int t[3];const int k=1;const int c[2]={1,2};void v(void);int f(int p);int g(int p,int q);void h(void){int x[1/0];} => constant 1:115
int a;int t[3];const int k=1;const int c[2]={1,2};void v(void);int f(int p);int g(int p,int q);void h(void){switch(1)case a:;} => constant 1:123
int a;int t[3];const int k=1;const int c[2]={1,2};void v(void);int f(int p);int g(int p,int q);void h(void){switch(1)case 1/0:;} => constant 1:123
int a;int t[3];const int k=1;const int c[2]={1,2};void v(void);int f(int p);int g(int p,int q);void h(void){case a:;} => jump 1:109
int a;int t[3];const int k=1;const int c[2]={1,2};void v(void);int f(int p);int g(int p,int q);void h(void){switch(1){case (1,2):;}}
int a;int t[3];const int k=1;const int c[2]={1,2};void v(void);int f(int p);int g(int p,int q);void h(void){switch(1){case 1?2:a:;}} => constant 1:124
int a;int t[3];const int k=1;const int c[2]={1,2};void v(void);int f(int p);int g(int p,int q);void h(void){int x[0],y[u];} => constant 1:115
int a;int t[3];const int k=1;const int c[2]={1,2};void v(void);int f(int p);int g(int p,int q);void h(void){switch(1)case f(1):;} => constant 1:123
int a;int t[3];const int k=1;const int c[2]={1,2};void v(void);int f(int p);int g(int p,int q);void h(void){int x[k];} => constant 1:115",
    // On items of lists.
    "int x[1]={1,2}; => initialiser 1:13
int x[2]={1,2};
int x[1]={1,x}; => array 1:13
int x[1]={1,y}; => undeclared 1:13
int x[2]={1,2,3,4}; => initialiser 1:15
int a;int t[3];const int k=1;const int c[2]={1,2};void v(void);int f(int p);int g(int p,int q);void h(void){int x[1]={1,2};} => initialiser 1:121
int a;int t[3];const int k=1;const int c[2]={1,2};void v(void);int f(int p);int g(int p,int q);void h(void){int x[1]={1,a};} => initialiser 1:121
int a;int t[3];const int k=1;const int c[2]={1,2};void v(void);int f(int p);int g(int p,int q);void h(void){int x[1]={1,u};} => undeclared 1:121
int a;int t[3];const int k=1;const int c[2]={1,2};void v(void);int f(int p);int g(int p,int q);void h(void){int x[1]={f(1,2),3};} => arguments 1:119
int a;int t[3];const int k=1;const int c[2]={1,2};void v(void);int f(int p);int g(int p,int q);void h(void){int x[2]={a,a,a};} => initialiser 1:123
int a;int t[3];const int k=1;const int c[2]={1,2};void v(void);int f(int p);int g(int p,int q);void h(void){for(int x[1]={1,2};;);} => initialiser 1:125
int a;int t[3];const int k=1;const int c[2]={1,2};void v(void);int f(int p);int g(int p,int q);void h(void){int x[0]={1,2};} => constant 1:115
int x[2]={{1},{2}}; => initialiser 1:11
int x[2]={1,{2}}; => initialiser 1:13
int x[1]={1,{2}}; => initialiser 1:13
int x[1]={{1},2}; => initialiser 1:11
int x[1]={1,2,{3}}; => initialiser 1:13
int x[3]={1,{2},{3}}; => initialiser 1:13
int x={{1}}; => array 1:5
int main(void){int a[2]={{1},{2}};return 0;} => initialiser 1:26
int main(void){int a[2]={1,{2}};return 0;} => initialiser 1:28
int main(void){int x={{1}};return 0;} => array 1:20
int main(void){static int x[2]={1,{2}};return 0;} => initialiser 1:35
int main(void){static int x={{1}};return 0;} => array 1:27
int main(void){int x[2]={1,{2,y}};return 0;} => initialiser 1:28
int main(void){int x[2]={y,{2}};return 0;} => undeclared 1:26
int main(void){int x[0]={{1}};return 0;} => constant 1:22",
    // On places.
    "int a;int t[3];const int k=1;const int c[2]={1,2};void v(void);int f(int p);int g(int p,int q);void h(void){1=2;} => place 1:110
int a;int t[3];const int k=1;const int c[2]={1,2};void v(void);int f(int p);int g(int p,int q);void h(void){f(1)=2;} => place 1:113
int a;int t[3];const int k=1;const int c[2]={1,2};void v(void);int f(int p);int g(int p,int q);void h(void){-a=3;} => place 1:111
int a;int t[3];const int k=1;const int c[2]={1,2};void v(void);int f(int p);int g(int p,int q);void h(void){++a=3;} => place 1:112
int a;int t[3];const int k=1;const int c[2]={1,2};void v(void);int f(int p);int g(int p,int q);void h(void){a++=3;} => place 1:112
int a;int t[3];const int k=1;const int c[2]={1,2};void v(void);int f(int p);int g(int p,int q);void h(void){5=a;} => place 1:110
int a;int t[3];const int k=1;const int c[2]={1,2};void v(void);int f(int p);int g(int p,int q);void h(void){++1;} => place 1:109
int a;int t[3];const int k=1;const int c[2]={1,2};void v(void);int f(int p);int g(int p,int q);void h(void){1++;} => place 1:110
int a;int t[3];const int k=1;const int c[2]={1,2};void v(void);int f(int p);int g(int p,int q);void h(void){--f(1);} => place 1:109
int a;int t[3];const int k=1;const int c[2]={1,2};void v(void);int f(int p);int g(int p,int q);void h(void){++t;} => place 1:109
int a;int t[3];const int k=1;const int c[2]={1,2};void v(void);int f(int p);int g(int p,int q);void h(void){++a[0];} => place 1:109
int a;int t[3];const int k=1;const int c[2]={1,2};void v(void);int f(int p);int g(int p,int q);void h(void){++f;} => place 1:109
int a;int t[3];const int k=1;const int c[2]={1,2};void v(void);int f(int p);int g(int p,int q);void h(void){++u;} => place 1:109
int a;int t[3];const int k=1;const int c[2]={1,2};void v(void);int f(int p);int g(int p,int q);void h(void){u++;} => undeclared 1:109
int a;int t[3];const int k=1;const int c[2]={1,2};void v(void);int f(int p);int g(int p,int q);void h(void){t=1;} => array 1:109
int a;int t[3];const int k=1;const int c[2]={1,2};void v(void);int f(int p);int g(int p,int q);void h(void){f=1;} => undeclared 1:109
int a;int t[3];const int k=1;const int c[2]={1,2};void v(void);int f(int p);int g(int p,int q);void h(void){(a)=3;}
int a;int t[3];const int k=1;const int c[2]={1,2};void v(void);int f(int p);int g(int p,int q);void h(void){((t[0]))++;}
int a;int t[3];const int k=1;const int c[2]={1,2};void v(void);int f(int p);int g(int p,int q);void h(void){(a+1)=2;} => place 1:114
int a;int t[3];const int k=1;const int c[2]={1,2};void v(void);int f(int p);int g(int p,int q);void h(void){(a,a)=1;} => place 1:114
int a;int t[3];const int k=1;const int c[2]={1,2};void v(void);int f(int p);int g(int p,int q);void h(void){++(a);}
int a;int t[3];const int k=1;const int c[2]={1,2};void v(void);int f(int p);int g(int p,int q);void h(void){++(a+1);} => place 1:109
int a;int t[3];const int k=1;const int c[2]={1,2};void v(void);int f(int p);int g(int p,int q);void h(void){a[0]=1;} => array 1:109
int a;int t[3];const int k=1;const int c[2]={1,2};void v(void);int f(int p);int g(int p,int q);void h(void){u[0]=1;} => undeclared 1:109
int a;int t[3];const int k=1;const int c[2]={1,2};void v(void);int f(int p);int g(int p,int q);void h(void){(1?a:a)=1;} => place 1:116
int a;int t[3];const int k=1;const int c[2]={1,2};void v(void);int f(int p);int g(int p,int q);void h(void){f(1)++;} => place 1:113",
    // On const.
    "const int x=1;int f(void){return x=2;} => const 1:35
int f(const int p){p=1;} => const 1:21
int f(const int p){p++;} => const 1:21
int a;int t[3];const int k=1;const int c[2]={1,2};void v(void);int f(int p);int g(int p,int q);void h(void){k=1;} => const 1:110
int a;int t[3];const int k=1;const int c[2]={1,2};void v(void);int f(int p);int g(int p,int q);void h(void){k+=1;} => const 1:110
int a;int t[3];const int k=1;const int c[2]={1,2};void v(void);int f(int p);int g(int p,int q);void h(void){++k;} => const 1:109
int a;int t[3];const int k=1;const int c[2]={1,2};void v(void);int f(int p);int g(int p,int q);void h(void){k++;} => const 1:110
int a;int t[3];const int k=1;const int c[2]={1,2};void v(void);int f(int p);int g(int p,int q);void h(void){c[0]=1;} => const 1:113
int a;int t[3];const int k=1;const int c[2]={1,2};void v(void);int f(int p);int g(int p,int q);void h(void){c[0]++;} => const 1:113
int a;int t[3];const int k=1;const int c[2]={1,2};void v(void);int f(int p);int g(int p,int q);void h(void){--c[1];} => const 1:109
int a;int t[3];const int k=1;const int c[2]={1,2};void v(void);int f(int p);int g(int p,int q);void h(void){const int x=1;x=2;} => const 1:124
int a;int t[3];const int k=1;const int c[2]={1,2};void v(void);int f(int p);int g(int p,int q);void h(void){const int x;x++;} => const 1:122
int a;int t[3];const int k=1;const int c[2]={1,2};void v(void);int f(int p);int g(int p,int q);void h(void){(k)=1;} => const 1:112
int a;int t[3];const int k=1;const int c[2]={1,2};void v(void);int f(int p);int g(int p,int q);void h(void){for(const int i=0;;i++);} => const 1:129
int a;int t[3];const int k=1;const int c[2]={1,2};void v(void);int f(int p);int g(int p,int q);void h(void){const int x[2];x[0]=1;} => const 1:128
int a;int t[3];const int k=1;const int c[2]={1,2};void v(void);int f(int p);int g(int p,int q);void h(void){k=k=1;} => const 1:110",
    // On arguments.
    "int f(int a){return f();} => arguments 1:21
int f(void){return f(1);} => arguments 1:20
int a;int t[3];const int k=1;const int c[2]={1,2};void v(void);int f(int p);int g(int p,int q);void h(void){f();} => arguments 1:109
int a;int t[3];const int k=1;const int c[2]={1,2};void v(void);int f(int p);int g(int p,int q);void h(void){f(1,2);} => arguments 1:109
int a;int t[3];const int k=1;const int c[2]={1,2};void v(void);int f(int p);int g(int p,int q);void h(void){f(1);}
int a;int t[3];const int k=1;const int c[2]={1,2};void v(void);int f(int p);int g(int p,int q);void h(void){g(1);} => arguments 1:109
int a;int t[3];const int k=1;const int c[2]={1,2};void v(void);int f(int p);int g(int p,int q);void h(void){g(1,2);}
int a;int t[3];const int k=1;const int c[2]={1,2};void v(void);int f(int p);int g(int p,int q);void h(void){f(g(1),2);} => arguments 1:109
int a;int t[3];const int k=1;const int c[2]={1,2};void v(void);int f(int p);int g(int p,int q);void h(void){v(1);} => arguments 1:109
int a;int t[3];const int k=1;const int c[2]={1,2};void v(void);int f(int p);int g(int p,int q);void h(void){f(1,2)+u;} => arguments 1:109
int a;int t[3];const int k=1;const int c[2]={1,2};void v(void);int f(int p);int g(int p,int q);void h(void){u+f(1,2);} => undeclared 1:109
int a;int t[3];const int k=1;const int c[2]={1,2};void v(void);int f(int p);int g(int p,int q);void h(void){f(u,u);} => arguments 1:109
int a;int t[3];const int k=1;const int c[2]={1,2};void v(void);int f(int p);int g(int p,int q);void h(void){g(f(),f());} => arguments 1:111",
    // On special names.
    "int __VERIFIER_nondet_int(void x); => void 1:32
int __VERIFIER_nondet_int(int int x); => specifiers 1:27
int abort(void); => special 1:5
void abort(int); => special 1:6
void abort(void);
void abort(void){}
int abort; => special 1:5
int f(int abort); => special 1:11
int f(void){int abort=1;} => special 1:17
void __VERIFIER_assume(void); => special 1:6
void __VERIFIER_assume(int);
void __VERIFIER_assume(long); => special 1:6
int __VERIFIER_assume(int); => special 1:5
void __pikos_assert(int);
void __pikos_assert(int,int); => special 1:6
char __VERIFIER_nondet_char(void);
int __VERIFIER_nondet_char(void); => special 1:5
unsigned long long __VERIFIER_nondet_ulonglong(void);
unsigned long __VERIFIER_nondet_ulonglong(void); => special 1:15
int __VERIFIER_nondet_int(int); => special 1:5
int __VERIFIER_nondet_float(void);
void abort(void);void abort(int); => redeclared 1:23
int abort(void);void abort(void); => special 1:5
void __VERIFIER_assume(int int); => specifiers 1:24
void __VERIFIER_assume(void x); => void 1:29
void abort(int int x); => specifiers 1:12
signed char __VERIFIER_nondet_char(void); => special 1:13
void abort; => void 1:6
extern int abort; => extern 1:12
int abort[2]; => special 1:5
const void abort(void);
void abort(void);int f(void){return abort();} => void 1:37
void abort(void);int f(void){abort(1);} => arguments 1:30
int __VERIFIER_nondet_int(void);int f(void){return __VERIFIER_nondet_int(1);} => arguments 1:52
int __VERIFIER_nondet_int(void){return 1;}",
    // On return.
    "void f(void){return 1;} => return 1:14
int f(void){return;} => return 1:13
int f(void){return 1;}
void f(void){return;}
void f(void){return x;} => return 1:14
int int f(void){return;} => specifiers 1:1
void v(void);void f(void){return v();} => return 1:27
void v(void);int f(void){return v();} => void 1:33
char f(void){return 300;}
int f(void){if(1)return;return 1;} => return 1:18
void f(void){{return 1/0;}} => return 1:15",
    // On labels.
    "int main(void){goto L;} => label 1:21
int main(void){L:goto L;}
int main(void){goto L;L:;}
int main(void){L:;L:;} => label 1:19
int main(void){L:;{L:;}} => label 1:20
int main(void){{L:;}goto L;}
int main(void){L:L:;} => label 1:18
int main(void){goto main;} => label 1:21
int main(void){goto M;L:;} => label 1:21
int main(void){L:;L:;L:;} => label 1:19
int main(void){goto x;goto y;} => label 1:21
int main(void){int L;L:L=1;goto L;}
int f(void){L:;}int g(void){goto L;} => label 1:34
int f(void){L:;}int g(void){L:;goto L;}",
    // On jumps and cases.
    "int main(void){break;} => jump 1:16
int main(void){continue;} => jump 1:16
int main(void){case 1:;} => jump 1:16
int main(void){default:;} => jump 1:16
int main(void){while(1)break;}
int main(void){while(1)continue;}
int main(void){do continue;while(1);}
int main(void){for(;;)break;}
int main(void){switch(1)break;}
int main(void){switch(1)continue;} => jump 1:25
int main(void){while(1)switch(1)continue;}
int main(void){switch(1)while(1)case 1:;}
int main(void){switch(1){case 1:case 1:;}} => jump 1:33
int main(void){switch(1){case 1:case 2:;}}
int main(void){switch(1){default:default:;}} => jump 1:34
int main(void){switch(1){default:switch(1)default:;}}
int main(void){switch(1){case 1:switch(1)case 1:;}}
int main(void){switch((unsigned)1){case 1:case 0x100000001l:;}} => jump 1:43
int main(void){switch((char)1){case 1:case 257:;}}
int main(void){switch((char)1){case 1:case 4294967297l:;}} => jump 1:39
int main(void){switch(1l){case 1:case 4294967297l:;}}
int main(void){switch(-1){case -1:case 4294967295u:;}} => jump 1:35
int main(void){switch(1){int x;case 1:;}} => jump 1:32
int main(void){switch(1){case 1:;int x;case 2:;}} => jump 1:40
int main(void){switch(1){{int x;}case 1:;}}
int main(void){switch(1){int x;{case 1:;}}} => jump 1:33
int main(void){switch(1){int x;default:;}} => jump 1:32
int main(void){switch(1)for(int i;;)case 1:;} => jump 1:37
int main(void){switch(1)for(;;)case 1:;}
int main(void){int x;switch(1)case 1:;}
int main(void){goto L;int x;L:;} => jump 1:21
int main(void){int x;goto L;L:;}
int main(void){{goto L;}int x;L:;} => jump 1:22
int main(void){goto L;{int x;L:;}} => jump 1:21
int main(void){{int x;L:;}goto L;} => jump 1:32
int main(void){{int x;L:goto L;}}
int main(void){{int x;goto L;}L:;}
int main(void){for(int i=0;;)M:;goto M;} => jump 1:38
int main(void){for(;;)M:;goto M;}
int main(void){for(int i=0;;){goto M;M:;}}
int main(void){goto L;int x[2];L:;} => jump 1:21
int main(void){int x;{int y;goto L;}L:;}
int main(void){{int x;goto L;}{int x;L:;}} => jump 1:28
int main(void){L:;int x;goto L;}
int main(void){int x;L:;int y;goto L;}
int main(void){switch(1){goto L;int y;L:;}} => jump 1:31
int main(void){while(1){int x;goto L;}L:;}
int main(void){switch(1){case 1:;}case 1:;} => jump 1:35
int main(void){case 1:case 1:;} => jump 1:16
int main(void){default:default:;} => jump 1:16
int main(void){switch(x){case 1:case 1:;}} => undeclared 1:23
int main(void){switch(1){case 1/0:case 1/0:;}} => constant 1:31
int main(void){switch(1){case 9223372036854775807l:case -9223372036854775807l-1:;}}
int main(void){switch(1ull){case -1:case 18446744073709551615ull:;}} => jump 1:37
int main(void){switch(1){case 2147483648l:case -2147483648l:;}} => jump 1:43
int main(void){if(1)break;else continue;} => jump 1:21
int main(void){while(1){}break;} => jump 1:26
int main(void){break;continue;} => jump 1:16
int main(void){goto L;goto L;int x;L:;} => jump 1:21",
    // On changes in one expression.
    "int a;int t[3];const int k=1;const int c[2]={1,2};void v(void);int f(int p);int g(int p,int q);void h(void){(a=1)+a;} => unsequenced 1:114
int a;int t[3];const int k=1;const int c[2]={1,2};void v(void);int f(int p);int g(int p,int q);void h(void){a+(a=1);} => unsequenced 1:110
int a;int t[3];const int k=1;const int c[2]={1,2};void v(void);int f(int p);int g(int p,int q);void h(void){(a=1)+(a=2);} => unsequenced 1:114
int a;int t[3];const int k=1;const int c[2]={1,2};void v(void);int f(int p);int g(int p,int q);void h(void){a++ + a;} => unsequenced 1:113
int a;int t[3];const int k=1;const int c[2]={1,2};void v(void);int f(int p);int g(int p,int q);void h(void){a+a++;} => unsequenced 1:110
int a;int t[3];const int k=1;const int c[2]={1,2};void v(void);int f(int p);int g(int p,int q);void h(void){(a=1)&&a;}
int a;int t[3];const int k=1;const int c[2]={1,2};void v(void);int f(int p);int g(int p,int q);void h(void){(a=1),a;}
int a;int t[3];const int k=1;const int c[2]={1,2};void v(void);int f(int p);int g(int p,int q);void h(void){(a=1)?a:a;}
int a;int t[3];const int k=1;const int c[2]={1,2};void v(void);int f(int p);int g(int p,int q);void h(void){1?(a=1):a;}
int a;int t[3];const int k=1;const int c[2]={1,2};void v(void);int f(int p);int g(int p,int q);void h(void){g(a,a=1);} => unsequenced 1:109
int a;int t[3];const int k=1;const int c[2]={1,2};void v(void);int f(int p);int g(int p,int q);void h(void){g(a=1,a=2);} => unsequenced 1:109
int a;int t[3];const int k=1;const int c[2]={1,2};void v(void);int f(int p);int g(int p,int q);void h(void){g(a,a);}
int a;int t[3];const int k=1;const int c[2]={1,2};void v(void);int f(int p);int g(int p,int q);void h(void){t[a]=a=1;} => unsequenced 1:110
int a;int t[3];const int k=1;const int c[2]={1,2};void v(void);int f(int p);int g(int p,int q);void h(void){t[a=1]=a;} => unsequenced 1:110
int a;int t[3];const int k=1;const int c[2]={1,2};void v(void);int f(int p);int g(int p,int q);void h(void){t[a=1]=1;}
int a;int t[3];const int k=1;const int c[2]={1,2};void v(void);int f(int p);int g(int p,int q);void h(void){t[t[0]=1]=2;} => unsequenced 1:110
int a;int t[3];const int k=1;const int c[2]={1,2};void v(void);int f(int p);int g(int p,int q);void h(void){t[t[0]++]++;}
int a;int t[3];const int k=1;const int c[2]={1,2};void v(void);int f(int p);int g(int p,int q);void h(void){t[t[0]=1]++;}
int a;int t[3];const int k=1;const int c[2]={1,2};void v(void);int f(int p);int g(int p,int q);void h(void){t[0]=t[1]=2;} => unsequenced 1:110
int a;int t[3];const int k=1;const int c[2]={1,2};void v(void);int f(int p);int g(int p,int q);void h(void){t[0]=t[1];}
int a;int t[3];const int k=1;const int c[2]={1,2};void v(void);int f(int p);int g(int p,int q);void h(void){a=a++;} => unsequenced 1:110
int a;int t[3];const int k=1;const int c[2]={1,2};void v(void);int f(int p);int g(int p,int q);void h(void){a=(a=1);} => unsequenced 1:110
int a;int t[3];const int k=1;const int c[2]={1,2};void v(void);int f(int p);int g(int p,int q);void h(void){a+=a=1;} => unsequenced 1:110
int a;int t[3];const int k=1;const int c[2]={1,2};void v(void);int f(int p);int g(int p,int q);void h(void){a=a+1;}
int a;int t[3];const int k=1;const int c[2]={1,2};void v(void);int f(int p);int g(int p,int q);void h(void){int x=x++;}
int a;int t[3];const int k=1;const int c[2]={1,2};void v(void);int f(int p);int g(int p,int q);void h(void){t[0]+t[1]++;} => unsequenced 1:113
int a;int t[3];const int k=1;const int c[2]={1,2};void v(void);int f(int p);int g(int p,int q);void h(void){t[a]+(a=1);} => unsequenced 1:113
int a;int t[3];const int k=1;const int c[2]={1,2};void v(void);int f(int p);int g(int p,int q);void h(void){f(a)+(a=1);} => unsequenced 1:113
int a;int t[3];const int k=1;const int c[2]={1,2};void v(void);int f(int p);int g(int p,int q);void h(void){(a=1)<(a=1);} => unsequenced 1:114
int a;int t[3];const int k=1;const int c[2]={1,2};void v(void);int f(int p);int g(int p,int q);void h(void){((a))=a++;} => unsequenced 1:114
int a;int t[3];const int k=1;const int c[2]={1,2};void v(void);int f(int p);int g(int p,int q);void h(void){(t[0])=t[0]=1;} => unsequenced 1:111
int a;int t[3];const int k=1;const int c[2]={1,2};void v(void);int f(int p);int g(int p,int q);void h(void){t[t[t[0]]]=1;}
int a;int t[3];const int k=1;const int c[2]={1,2};void v(void);int f(int p);int g(int p,int q);void h(void){t[a++]=a;} => unsequenced 1:110
int a;int t[3];const int k=1;const int c[2]={1,2};void v(void);int f(int p);int g(int p,int q);void h(void){a=t[a++];} => unsequenced 1:110
int a;int t[3];const int k=1;const int c[2]={1,2};void v(void);int f(int p);int g(int p,int q);void h(void){int x[2]={a=1,a=2};}
int a;int t[3];const int k=1;const int c[2]={1,2};void v(void);int f(int p);int g(int p,int q);void h(void){k+(a=1);}
int a;int t[3];const int k=1;const int c[2]={1,2};void v(void);int f(int p);int g(int p,int q);void h(void){{int a;a=1+a;}}
int a;int t[3];const int k=1;const int c[2]={1,2};void v(void);int f(int p);int g(int p,int q);void h(void){g(t[0]=1,t[1]);} => unsequenced 1:109
int a;int t[3];const int k=1;const int c[2]={1,2};void v(void);int f(int p);int g(int p,int q);void h(void){f((a=1)+(a=2));} => unsequenced 1:116
int a;int t[3];const int k=1;const int c[2]={1,2};void v(void);int f(int p);int g(int p,int q);void h(void){a<<(a=1);} => unsequenced 1:110
int a;int t[3];const int k=1;const int c[2]={1,2};void v(void);int f(int p);int g(int p,int q);void h(void){a^(a^=1);} => unsequenced 1:110
int a;int t[3];const int k=1;const int c[2]={1,2};void v(void);int f(int p);int g(int p,int q);void h(void){{int b;(a=1)+(b=1);}}",
];

pub(crate) fn is_told(alloc: Global, text: &str, wanted: &str) -> Result<bool, Fail> {
    let refusal = answer(alloc, text.as_bytes())?;
    let got = printed(alloc, refusal)?;
    Ok(got.as_str() == wanted)
}

#[test]
fn texts(rt: HostRuntime) -> Result<(), Fail> {
    for table in &TABLES {
        for line in table.split('\n') {
            let (text, wanted) = line.split_once(" => ").unwrap_or((line, ""));
            assert!(rt; is_told(rt.alloc(), text, wanted)?, "{text}");
        }
    }
    Ok(())
}
