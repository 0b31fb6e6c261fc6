// Where several rules fail, the earliest place is told, and at one place the upper rule of the table. Expected values are those of the reference implementation.

use crate::typing::is_told;
use std::test::Fail;

// A text in each line, in which two rules fail at one place, or several at one.
const AT_ONE_PLACE: [&str; 3] = [
    "int x;extern int x; => redeclared 1:18
int x;void x; => redeclared 1:12
int x;int x={1}; => redeclared 1:11
int x;int x[2]=1; => redeclared 1:11
void abort(void);int abort; => redeclared 1:22
void abort(void);int abort(int); => redeclared 1:22
void x={1}; => void 1:6
void f(void){void x[2]=1;} => void 1:19
int f(void abort); => void 1:12
int f(int b[3]); => array 1:11
int f(int,int[3]); => array 1:11
void f(void b[3]); => void 1:13
int abort={1}; => array 1:5
int f(int a,void a); => redeclared 1:18
int f(int abort,int abort); => special 1:11
void f(int a){void a;} => redeclared 1:20
void f(int a){int a={1};} => redeclared 1:19
void f(void){switch(1)case y:;} => undeclared 1:28
void f(void){int x[1]={1,y};} => undeclared 1:26
int a;int t[3];const int k=1;void v(void);int f(int p);void h(void){u(a=1,a=2);} => undeclared 1:69
int x=y(); => undeclared 1:7
void f(void){int x[1]={1,y()};} => undeclared 1:26
int a;int t[3];const int k=1;void v(void);int f(int p);int x=v(); => void 1:62",
    "int a;int t[3];const int k=1;void v(void);int f(int p);void h(void){switch(1)case v():;} => void 1:83
int a;int t[3];const int k=1;void v(void);int f(int p);void h(void){int x[1]={1,v()};} => void 1:81
int a;int t[3];const int k=1;void v(void);int f(int p);void h(void){1+v(1);} => void 1:71
int a;int t[3];const int k=1;void v(void);int f(int p);void w(int p,int q);void h(void){1+w(a=1,a=2);} => void 1:91
int a;int t[3];const int k=1;void v(void);int f(int p);int x=(void)a; => void 1:62
int a;int t[3];const int k=1;void v(void);int f(int p);int x=(void)1; => void 1:62
int a;int t[3];const int k=1;void v(void);int f(int p);void h(void){int x[1]={1,(void)1};} => void 1:81
int a;int t[3];const int k=1;void v(void);int f(int p);int x=t; => array 1:62
int a;int t[3];const int k=1;void v(void);int f(int p);int x=a[1]; => array 1:62
int a;int t[3];const int k=1;void v(void);int f(int p);void h(void){int x[1]={1,t};} => array 1:81
int a;int t[3];const int k=1;void v(void);int f(int p);void h(void){switch(1)case t:;} => array 1:83
int a;int t[3];const int k=1;void v(void);int f(int p);int x[1]={1,a}; => constant 1:68
int a;int t[3];const int k=1;void v(void);int f(int p);int x=++t; => constant 1:62
int a;int t[3];const int k=1;void v(void);int f(int p);void h(void){switch(1)case ++f:;} => constant 1:83
int a;int t[3];const int k=1;void v(void);int f(int p);int x=++k; => constant 1:62
int a;int t[3];const int k=1;void v(void);int f(int p);int x=f(); => constant 1:62
int a;int g(int p,int q);int x=g(a=1,a=2); => constant 1:32
int a;int t[3];const int k=1;void v(void);int f(int p);int x[1]={1,f()}; => constant 1:68
int a;int t[3];const int k=1;void v(void);int f(int p);int x[1]={1,1/0}; => constant 1:68
int a;int t[3];const int k=1;void v(void);int f(int p);void h(void){int x[1]={1,++t};} => initialiser 1:81",
    "int a;int t[3];const int k=1;void v(void);int f(int p);void h(void){int x[1]={1,++k};} => initialiser 1:81
int a;int t[3];const int k=1;void v(void);int f(int p);void h(void){int x[1]={1,f()};} => initialiser 1:81
int a;int g(int p,int q);void h(void){int x[1]={1,g(a=1,a=2)};} => initialiser 1:51
const int k=1;void h(void){k=k++;} => const 1:29
const int k=1;void h(void){k=(k=1);} => const 1:29
int a;int t[3];const int k=1;void v(void);int f(int p);void h(void){f(a=1,a=2);} => arguments 1:69
void f(int a){case 1:;switch(a){case 1:;case 1:;}} => jump 1:15
void f(int a){switch(a){case 1:;int b;case 1:;}} => jump 1:39
void f(int a){switch(a){default:;int b;default:;}} => jump 1:40",
];

// Texts in which a rule stands at a place before what makes it fail, where another may fail.
const BEFORE_THE_CAUSE: [&str; 3] = [
    "int x=1+y; => constant 1:7
int x[1+y]; => constant 1:7
int a;int t[3];const int k=1;void v(void);int f(int p);int x=1+v(); => constant 1:62
int a;int t[3];const int k=1;void v(void);int f(int p);int x=1+t; => constant 1:62
int a;int t[3];const int k=1;void v(void);int f(int p);int x=1+(f=1); => constant 1:62
int a;int t[3];const int k=1;void v(void);int f(int p);int x=1+k++; => constant 1:62
int a;int t[3];const int k=1;void v(void);int f(int p);int x=1+f(); => constant 1:62
int a;int t[3];const int k=1;void v(void);int f(int p);int x=a+(a=1); => constant 1:62
int x=1+(int int)1; => specifiers 1:10
void f(int a){switch(a)case 1/0:;} => constant 1:29
void f(void){++u;} => place 1:14
int a;int t[3];const int k=1;void v(void);int f(int p);void h(void){++a[u];} => place 1:69
int a;int t[3];const int k=1;void v(void);int f(int p);void h(void){++t;} => place 1:69
int a;int t[3];const int k=1;void v(void);int f(int p);void h(void){++a[0];} => place 1:69
int a;int t[3];const int k=1;void v(void);int f(int p);void h(void){++v();} => place 1:69
int a;int t[3];const int k=1;void v(void);int f(int p);void h(void){++f();} => place 1:69
int a;int t[3];const int k=1;void v(void);int f(int p);void h(void){++t[u];} => undeclared 1:73
const int c[2]={1,2};void h(void){++c[u];} => const 1:35
const int c[2]={1,2};void v(void);void h(void){++c[v()];} => const 1:48
int a;int t[3];const int k=1;void v(void);int f(int p);int h(void){return f(1,2)+z;} => arguments 1:75",
    "int a;int t[3];const int k=1;void v(void);int f(int p);int h(void){return f(1,z);} => arguments 1:75
int a;int t[3];const int k=1;void v(void);int f(int p);int h(void){return f(1,t);} => arguments 1:75
int a;int t[3];const int k=1;void v(void);int f(int p);int h(void){return f(1,k=1);} => arguments 1:75
int a;int t[3];const int k=1;void v(void);int f(int p);int h(void){return f(1,1=2);} => arguments 1:75
int a;int f(int p);int g(int p,int q);int h(void){return g(a=1,(a=2)+f());} => unsequenced 1:58
int a;int g(int p,int q,int r);int h(void){return g(a=1,a=2,u);} => unsequenced 1:51
int t[3];const int k=1;void h(void){t[t[0]=1]=k=2;} => unsequenced 1:38
int t[3];void h(void){t[t[0]=1]=1=2;} => unsequenced 1:24
int t[3];void v(void);void h(void){t[t[0]=1]=1+v();} => unsequenced 1:37
void f(void){return u;} => return 1:14
int a;int t[3];const int k=1;void v(void);int f(int p);void h(void){return v();} => return 1:69
int a;int t[3];const int k=1;void v(void);int f(int p);void h(void){return f();} => return 1:69
int f(void);int f(int a){return u;} => redeclared 1:17
int abort=u; => special 1:5
int abort(void a); => void 1:16
int f(int);int f(int,int);int y(int int); => redeclared 1:16
int a;int t[3];const int k=1;void v(void);int f(int p);void x[f]; => void 1:61
void f(int a){case a:;} => jump 1:15
void f(int a){case u:;} => jump 1:15
void f(int a){case 1/0:;} => jump 1:15",
    "int a;int t[3];const int k=1;void v(void);int f(int p);void h(void){case v():;} => jump 1:69
void f(void){goto l;u;} => label 1:19
void f(void){l:u;l:;} => undeclared 1:16
int x;char int x; => specifiers 1:7
int f(char int,void); => specifiers 1:7
char int abort; => specifiers 1:1
extern int x=y; => extern 1:12
int x={y}; => array 1:5
int a;int x={a}; => array 1:11
void f(int a){switch(a){case 1:;case u:;case 1:;}} => undeclared 1:38
void f(int a){switch(a){case 1:;{int b;case 1:;}}} => jump 1:40",
];

#[test]
fn places(rt: HostRuntime) -> Result<(), Fail> {
    for tables in [&AT_ONE_PLACE[..], &BEFORE_THE_CAUSE[..]] {
        for table in tables {
            for line in table.split('\n') {
                let (text, wanted) = line.split_once(" => ").unwrap_or((line, ""));
                assert!(rt; is_told(rt.alloc(), text, wanted)?, "{text}");
            }
        }
    }
    Ok(())
}
