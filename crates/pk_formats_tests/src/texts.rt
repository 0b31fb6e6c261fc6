// Texts and what was answered on them. The reports are those of `pikos run` on the examples, and shorter ones by hand.

use pk_findings::{Refused, Shown, look, refusal};
use std::alloc::Global;
use std::test::Fail;

/// `gcc -std=c99 -ffreestanding -E examples/table.c`
pub const TABLE: &str = r###"# 0 "examples/table.c"
# 0 "<built-in>"
# 0 "<command-line>"
# 1 "examples/table.c"

# 1 "examples/verifier.h" 1

extern int __VERIFIER_nondet_int(void);
extern unsigned char __VERIFIER_nondet_uchar(void);
extern short __VERIFIER_nondet_short(void);
extern void __VERIFIER_assume(int condition);
extern void __pikos_assert(int condition);
# 3 "examples/table.c" 2

int table[9] = {0, 12, 48, 108, 192, 300, 432, 588, 768};

int look_up(int x) {
    int at = x / 32;
    int rest = x % 32;
    int low = table[at];
    int high = table[at + 1];
    return low + (high - low) * rest / 32;
}

int main(void) {
    int x = __VERIFIER_nondet_int();
    __VERIFIER_assume(x >= 0 && x <= 256);
    return look_up(x);
}
"###;

pub const TABLE_REPORT: &str = r###"pikos 1 entry main points 16 elements 17
access main>look_up@28:12 18:16 divzero safe
access main>look_up@28:12 18:16 overflow safe
access main>look_up@28:12 19:18 divzero safe
access main>look_up@28:12 19:18 overflow safe
access main>look_up@28:12 20:20 index safe
access main>look_up@28:12 21:25 overflow safe
access main>look_up@28:12 21:21 index unknown [1,9]
access main>look_up@28:12 22:24 overflow safe
access main>look_up@28:12 22:31 overflow safe
access main>look_up@28:12 22:38 divzero safe
access main>look_up@28:12 22:38 overflow safe
access main>look_up@28:12 22:16 overflow safe
result safe 11 unknown 1 unreachable 0
"###;

/// A division on two call paths, one of them unknown, a loop, and a function of a header.
pub const PATHS: &str = r###"# 1 "src/odd name.c"
# 1 "lib.h" 1
int ratio(int a, int b) { return a / b; }
# 2 "src/odd name.c" 2
int main(void) {
    int s = ratio(8, 2) + ratio(8, any());
    for (int i = 0; i < s && s < 3; i++) { s = "<&\"'>"[i]; }
    return s;
}
"###;

pub const PATHS_REPORT: &str = r###"pikos 1 entry main points 9 elements 12
head 4 main 7:5
  i [0,3] 1Z+0
  s [1,7] 2Z+1
  i - s <= 0
head 5 main 7:5
  unreachable
access main>ratio@6:13 3:36 divzero safe
access main>ratio@6:27 3:36 divzero unknown [-4,9]
access main>ratio@6:27 3:36 overflow unreachable
access main 6:25 overflow safe
access main 7:56 index unknown [0,6]
access main>ratio@6:27>ratio@3:5 3:36 divzero unknown [0,0]
result safe 2 unknown 3 unreachable 1
"###;

pub fn shown<'t>(
    alloc: Global,
    name: &'t [u8],
    text: &'t str,
    report: &'t str,
) -> Result<Shown<'t>, Fail> {
    match look(alloc, name, text.as_bytes(), report.as_bytes()) {
        Ok(shown) => Ok(shown),
        Err(_) => Err(Fail::from("the report is on the text")),
    }
}

pub fn refused<'t>(
    alloc: Global,
    name: &'t [u8],
    text: &'t str,
    answer: &'t str,
) -> Result<Refused<'t>, Fail> {
    match refusal(alloc, name, text.as_bytes(), answer.as_bytes())? {
        Some(refused) => Ok(refused),
        None => Err(Fail::from("the text was refused")),
    }
}
