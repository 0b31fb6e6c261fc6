// Preprocessed texts, and where their lines come from. gcc 12 and clang 14 wrote them (`-std=c99 -ffreestanding -E`, and
// `-C` where comments are kept), of a file with two nested headers, a macro over two lines and a `#line`. Each declared
// name says the line on which it was written.

use pk_origin::{file_name, lines, origins};
use std::alloc::Global;
use std::process::Abort;
use std::test::Fail;

const GCC: &str = r###"# 0 "main.c"
# 0 "<built-in>"
# 0 "<command-line>"
# 1 "main.c"
int main_1;
# 1 "outer.h" 1
int outer_1;
# 1 "inner.h" 1
int inner_1;




int inner_6;
# 3 "outer.h" 2
int outer_3;



int outer_7;
# 3 "main.c" 2
int main_3; int main_3b;

int main_5; int main_5b;
# 40 "renamed.c"
int renamed_40;





char renamed_46 = '"';
# 67 "renamed.c"
int renamed_67;
"###;

const GCC_LINES: &str =
    "4 main.c 1; 6 outer.h 1; 8 inner.h 1; 13 inner.h 6; 15 outer.h 3; 19 outer.h 7; \
    21 main.c 3; 23 main.c 5; 25 renamed.c 40; 31 renamed.c 46; 33 renamed.c 67";

const CLANG: &str = r###"# 1 "main.c"
# 1 "<built-in>" 1
# 1 "<built-in>" 3
# 360 "<built-in>" 3
# 1 "<command line>" 1
# 1 "<built-in>" 2
# 1 "main.c" 2
int main_1;
# 1 "./outer.h" 1
int outer_1;
# 1 "./inner.h" 1
int inner_1;




int inner_6;
# 3 "./outer.h" 2
int outer_3;



int outer_7;
# 3 "main.c" 2
int main_3; int main_3b;

int main_5; int main_5b;
# 40 "renamed.c"
int renamed_40;





char renamed_46 = '"';
# 67 "renamed.c"
int renamed_67;
"###;

const CLANG_LINES: &str =
    "7 main.c 1; 9 ./outer.h 1; 11 ./inner.h 1; 16 ./inner.h 6; 18 ./outer.h 3; \
    22 ./outer.h 7; 24 main.c 3; 26 main.c 5; 28 renamed.c 40; 34 renamed.c 46; \
    36 renamed.c 67";

const GCC_WITH_COMMENTS: &str = r###"# 0 "main.c"
# 0 "<built-in>"
# 0 "<command-line>"
# 1 "main.c"
int main_1;
# 1 "outer.h" 1
int outer_1;
# 1 "inner.h" 1
int inner_1;




int inner_6;
# 3 "outer.h" 2
int outer_3;
/* a comment
   # 77 "no.c"
*/
int outer_7;
# 3 "main.c" 2
int main_3; int main_3b;

int main_5; /* " */ int main_5b;
# 40 "renamed.c"
int renamed_40;





char renamed_46 = '"'; /* # 9 "x" */
# 67 "renamed.c"
int renamed_67;
"###;

const GCC_WITH_COMMENTS_LINES: &str =
    "4 main.c 1; 6 outer.h 1; 8 inner.h 1; 13 inner.h 6; 15 outer.h 3; 19 outer.h 7; \
    21 main.c 3; 23 main.c 5; 25 renamed.c 40; 31 renamed.c 46; 33 renamed.c 67";

// Names that have to be spelled, as markers and as bytes.
const SPELLED: &str = r###"# 1 "a\"b.h"
int x;
# 2 "a\\b.h" 2
int x;
# 3 "a\tb\303\244.h" 1 3 4
int x;
# 4 "a\nb.h"
int x;
  #  5   "blanks.h"  3 
int x;
# 6 "
int x;
# 2147483648 "great.h"
int x;
# 9 "three\77.h"
int x;
#pragma once
int x;
"###;

const NAMES: [(usize, &str, u64); 9] = [
    (1, "a\"b.h", 1),
    (3, "a\\b.h", 2),
    (5, "a\tb\u{e4}.h", 3),
    (7, "a\nb.h", 4),
    (9, "blanks.h", 5),
    (11, "blanks.h", 7),
    (13, "blanks.h", 9),
    (15, "blanks.h", 11),
    (17, "blanks.h", 13),
];

// Line k of a text comes from this line of this file; an empty name stands for the text itself.
fn expect(
    rt: &impl Abort,
    alloc: Global,
    text: &str,
    k: usize,
    file: &str,
    line: u64,
) -> Result<(), Fail> {
    let lines = lines(alloc, text.as_bytes())?;
    let origins = origins(alloc, &lines)?;
    let origin = origins.get(k).ok_or("the text has the line")?;
    assert!(rt; origin.line == line);
    let name = file_name(alloc, &lines, *origin)?;
    match name {
        Some(name) => assert!(rt; name.as_slice() == file.as_bytes()),
        None => assert!(rt; file.is_empty()),
    }
    Ok(())
}

// Each row is as `4 main.c 1`.
fn expect_all(rt: &impl Abort, alloc: Global, text: &str, rows: &str) -> Result<(), Fail> {
    for row in rows.split(';') {
        let (k, rest) = row.trim().split_once(' ').ok_or("a row has three words")?;
        let (file, line) = rest.split_once(' ').ok_or("a row has three words")?;
        expect(
            rt,
            alloc,
            text,
            k.parse::<usize>()?,
            file,
            line.parse::<u64>()?,
        )?;
    }
    Ok(())
}

#[test]
fn texts_of_gcc(rt: HostRuntime) -> Result<(), Fail> {
    expect_all(&rt, rt.alloc(), GCC, GCC_LINES)
}

#[test]
fn texts_of_clang(rt: HostRuntime) -> Result<(), Fail> {
    expect_all(&rt, rt.alloc(), CLANG, CLANG_LINES)
}

#[test]
fn comments_that_are_kept(rt: HostRuntime) -> Result<(), Fail> {
    expect_all(&rt, rt.alloc(), GCC_WITH_COMMENTS, GCC_WITH_COMMENTS_LINES)
}

#[test]
fn names_as_they_are_spelled(rt: HostRuntime) -> Result<(), Fail> {
    for (k, file, line) in &NAMES {
        expect(&rt, rt.alloc(), SPELLED, *k, file, *line)?;
    }
    Ok(())
}

#[test]
fn a_text_without_markers_is_its_own_file(rt: HostRuntime) -> Result<(), Fail> {
    let text = "int main(void)\n{\n    return 0;\n}\n";
    expect(&rt, rt.alloc(), text, 0, "", 1)?;
    expect(&rt, rt.alloc(), text, 2, "", 3)?;
    expect(&rt, rt.alloc(), text, 4, "", 5)?;
    expect(&rt, rt.alloc(), "", 0, "", 1)
}
