// Reports that the program wrote, and what is shown of them; the findings were written by hand, from the sources.

use pk_ctypes::Pos;
use pk_findings::{ShowError, look, place_number, refusal, with_lengths};
use pk_listing::{Source, listing, refusals};
use pk_origin::lines;
use pk_show::{ReadError, read};
use pk_wrong_byte::first_wrong_byte;
use std::alloc::Global;
use std::collections::HashMap;
use std::process::Abort;
use std::test::Fail;

// `gcc -std=c99 -ffreestanding -E examples/table.c`
const TABLE: &str = r###"# 0 "examples/table.c"
# 0 "<built-in>"
# 0 "<command-line>"
# 1 "examples/table.c"

# 1 "examples/verifier.h" 1

extern int __VERIFIER_nondet_int(void);
extern unsigned char __VERIFIER_nondet_uchar(void);
extern short __VERIFIER_nondet_short(void);
extern void __VERIFIER_assume(int condition);
extern void __pikos_assert(int condition);
# 3 "examples/table.c" 2

int table[9] = {0, 12, 48, 108, 192, 300, 432, 588, 768};

int look_up(int x) {
    int at = x / 32;
    int rest = x % 32;
    int low = table[at];
    int high = table[at + 1];
    return low + (high - low) * rest / 32;
}

int main(void) {
    int x = __VERIFIER_nondet_int();
    __VERIFIER_assume(x >= 0 && x <= 256);
    return look_up(x);
}
"###;

const TABLE_REPORT: &str = r###"pikos 1 entry main points 16 elements 17
access main>look_up@28:12 18:16 divzero safe
access main>look_up@28:12 18:16 overflow safe
access main>look_up@28:12 19:18 divzero safe
access main>look_up@28:12 19:18 overflow safe
access main>look_up@28:12 20:20 index safe
access main>look_up@28:12 21:25 overflow safe
access main>look_up@28:12 21:21 index unknown [1,9]
access main>look_up@28:12 22:24 overflow safe
access main>look_up@28:12 22:31 overflow safe
access main>look_up@28:12 22:38 divzero safe
access main>look_up@28:12 22:38 overflow safe
access main>look_up@28:12 22:16 overflow safe
result safe 11 unknown 1 unreachable 0
"###;

const TABLE_FINDINGS: &str =
    "examples/table.c:10:21: unknown [index]: table[at + 1] may be out of bounds: the index is in [1,9], the array has 9 elements
        int high = table[at + 1];
                        ^
    in look_up, called from main (examples/table.c:17:12)
standard input: 12 operations: 11 safe, 1 unknown, 0 unreachable
";

// Two calls lead to one operation, and of another two are told at one place.
const TWO_WAYS: &str =
    "extern int __VERIFIER_nondet_int(void); extern void __VERIFIER_assume(int c);
int a[4];
int at(int i) {
\treturn a[i];
}
int main(void) {
    int x = __VERIFIER_nondet_int();
    __VERIFIER_assume(x >= 0 && x <= 9);
    return at(x) + at(x + 3);
}
";

const TWO_WAYS_REPORT: &str = r###"pikos 1 entry main points 16 elements 17
access main>at@9:12 4:10 index unknown [0,9]
access main 9:25 overflow safe
access main>at@9:20 4:10 index unknown [3,12]
access main 9:18 overflow safe
result safe 2 unknown 2 unreachable 0
"###;

const TWO_WAYS_FINDINGS: &str =
    "standard input:4:10: unknown [index]: a[i] may be out of bounds: the index is in [0,12]
    \treturn a[i];
    \t        ^
    in at, called from main (standard input:9:12): [0,9]
    in at, called from main (standard input:9:20): [3,12]
standard input: 3 operations: 2 safe, 1 unknown, 0 unreachable
";

// What stands at heads: of variables, of an array, of two variables, and where no run comes.
const RING_REPORT: &str = r###"pikos 1 entry main points 35 elements 37
head 1 main 39:5
  buffer[] [0,255] 1Z+0
  head [0,15] 1Z+0
  count [0,16] 1Z+0
access main>put@41:13 23:22 overflow safe
access main>put@41:13 23:31 divzero safe
access main>put@41:13 23:31 overflow safe
access main>put@41:13 23:15 index safe
access main>put@41:13 24:14 overflow safe
access main>get@43:24 31:22 index safe
access main>get@43:24 32:22 overflow safe
access main>get@43:24 32:27 divzero safe
access main>get@43:24 32:27 overflow safe
access main>get@43:24 33:14 overflow safe
access main 44:13 assert safe
result safe 11 unknown 0 unreachable 0
"###;

const FORMS: &str = "pikos 1 entry main points 40 elements 44
head 20 main>f@4:2>g@30:12 18446744073709551615:1
  payload[] [-36893488147419103232,255] 2Z+1
  key[0] [0,255] 1Z+0
  key[18446744073709551615] [7,7] 0Z+7
  length [0,32] 0Z+7
  length - i <= -3
  length + i <= 4
  -length - i <= 0
point 21 main 3:1
head 22 main 3:1
  unreachable
access main>f@4:2>g@30:12 5:5 shift unknown [-1,36893488147419103232]
access main 5:6 assert unreachable
result safe 0 unknown 1 unreachable 1
";

fn is_read(alloc: Global, report: &[u8]) -> Result<bool, Fail> {
    match read(alloc, report) {
        Ok(_) => Ok(true),
        Err(ReadError::Refused(_)) => Ok(false),
        Err(ReadError::Memory) => Err(Fail::from("there is memory")),
    }
}

const SCALE_FILE: &str = "#define SCALE(x) (100 / (x))

int __VERIFIER_nondet_int(void);

int main(void) {
    int gap = __VERIFIER_nondet_int() & 7; /* up to 7 */
    int rate = SCALE(gap);                 /* fails at 0 */
    int late = 0;
    int zero = 0;
    while (late < 5) {
        late = late + 1;
    }
    if (gap > 9) {
        rate = rate + 1;
    }
    return rate / zero + late; /* always fails */
}
";

// `gcc -std=c99 -ffreestanding -E scale.c`
const SCALE: &str = r###"# 0 "scale.c"
# 0 "<built-in>"
# 0 "<command-line>"
# 1 "scale.c"


int __VERIFIER_nondet_int(void);

int main(void) {
    int gap = __VERIFIER_nondet_int() & 7;
    int rate = (100 / (gap));
    int late = 0;
    int zero = 0;
    while (late < 5) {
        late = late + 1;
    }
    if (gap > 9) {
        rate = rate + 1;
    }
    return rate / zero + late;
}
"###;

const SCALE_REPORT: &str = r###"pikos 1 entry main points 16 elements 18
head 6 main 14:5
  gap [0,7] 1Z+0
  rate [14,100] 1Z+0
  late [0,5] 1Z+0
  zero [0,0] 0Z+0
  late - rate <= -9
access main 11:21 divzero unknown [0,7]
access main 11:21 overflow safe
access main 15:21 overflow safe
access main 18:21 overflow unreachable
access main 20:17 divzero unknown [0,0]
access main 20:17 overflow safe
access main 20:24 overflow unreachable
result safe 3 unknown 2 unreachable 2
"###;

const SCALE_FINDINGS: &str = "scale.c:7: unknown [divzero]: the divisor may be 0: it lies in [0,7]
        int rate = SCALE(gap);                 /* fails at 0 */
        int rate = (100 / (gap));
                        ^
    in main
scale.c:14:21: unreachable [overflow]: no run comes here: what stands before it always fails, never ends or leads elsewhere
scale.c:16:17: unknown [divzero]: the divisor may be 0: it lies in [0,0]
        return rate / zero + late; /* always fails */
                    ^
    in main
scale.c:16:24: unreachable [overflow]: no run comes here: what stands before it always fails, never ends or leads elsewhere
scale.c:10:5: loop: in every run, whenever it is at its head:
    in main
    gap in [0,7]
    rate in [14,100]
    late in [0,5]
    zero in [0,0]
    late - rate <= -9
standard input: 7 operations: 3 safe, 2 unknown, 2 unreachable
";

// What is told of a text and a report on it, in one string with what went wrong.
fn told(alloc: Global, text: &str, report: &str) -> Result<Vec<u8>, Fail> {
    match look(alloc, b"standard input", text.as_bytes(), report.as_bytes()) {
        Ok(shown) => Ok(listing(alloc, &[], false, &[shown])?),
        Err(_) => Err(Fail::from("the report is on the text")),
    }
}

// The same, with the lines of a file of this name and what holds at the heads of loops.
fn told_with(
    alloc: Global,
    text: &str,
    report: &str,
    name: &str,
    file: &str,
) -> Result<Vec<u8>, Fail> {
    let source = Source {
        name: name.as_bytes(),
        lines: lines(alloc, file.as_bytes())?,
    };
    match look(alloc, b"standard input", text.as_bytes(), report.as_bytes()) {
        Ok(shown) => Ok(listing(alloc, &[source], true, &[shown])?),
        Err(_) => Err(Fail::from("the report is on the text")),
    }
}

fn expect(
    rt: &impl Abort,
    alloc: Global,
    text: &str,
    report: &str,
    expected: &str,
) -> Result<(), Fail> {
    let bytes = told(alloc, text, report)?;
    assert!(rt; bytes.as_slice() == expected.as_bytes());
    Ok(())
}

// The same, with the length of the array that is accessed at a place.
fn told_measured(
    alloc: Global,
    text: &str,
    report: &str,
    at: Pos,
    length: u64,
) -> Result<Vec<u8>, Fail> {
    let mut lengths = HashMap::new(alloc);
    lengths.insert(place_number(at), length)?;
    match look(alloc, b"standard input", text.as_bytes(), report.as_bytes()) {
        Ok(shown) => Ok(listing(alloc, &[], false, &[with_lengths(alloc, &lengths, shown)?])?),
        Err(_) => Err(Fail::from("the report is on the text")),
    }
}

#[test]
fn table_at_its_origins(rt: HostRuntime) -> Result<(), Fail> {
    let at = Pos {
        line: 21,
        column: 21,
    };
    let bytes = told_measured(rt.alloc(), TABLE, TABLE_REPORT, at, 9)?;
    assert!(rt; bytes.as_slice() == TABLE_FINDINGS.as_bytes());
    Ok(())
}

#[test]
fn one_operation_on_two_ways(rt: HostRuntime) -> Result<(), Fail> {
    expect(
        &rt,
        rt.alloc(),
        TWO_WAYS,
        TWO_WAYS_REPORT,
        TWO_WAYS_FINDINGS,
    )
}

#[test]
fn lines_of_the_file_beside_expanded_ones(rt: HostRuntime) -> Result<(), Fail> {
    let bytes = told_with(rt.alloc(), SCALE, SCALE_REPORT, "scale.c", SCALE_FILE)?;
    assert!(rt; bytes.as_slice() == SCALE_FINDINGS.as_bytes());
    Ok(())
}

// Why nothing is told, or nothing where something is.
fn why(alloc: Global, text: &str, report: &str) -> Option<ShowError> {
    match look(alloc, b"", text.as_bytes(), report.as_bytes()) {
        Ok(_) => None,
        Err(error) => Some(error),
    }
}

#[test]
fn a_report_on_another_text_is_refused(rt: HostRuntime) -> Result<(), Fail> {
    let alloc = rt.alloc();
    assert!(rt; matches!(why(alloc, TABLE, TABLE_REPORT), None));
    let (front, _) = TABLE.split_once("int main").ok_or("the text has a main")?;
    assert!(rt; matches!(why(alloc, front, TABLE_REPORT), Some(ShowError::OtherText)));
    assert!(rt;
        matches!(
            why(alloc, TWO_WAYS, TABLE_REPORT),
            Some(ShowError::OtherText)
        )
    );
    assert!(rt; matches!(why(alloc, TABLE, "pikos 1\n"), Some(ShowError::NoReport(0))));
    Ok(())
}

// What is said of a text without a report.
fn said(alloc: Global, text: &str, answer: &str) -> Result<Vec<u8>, Fail> {
    match refusal(alloc, b"a.c", text.as_bytes(), answer.as_bytes())? {
        Some(refused) => Ok(refusals(alloc, &[], &[refused])?),
        None => Err(Fail::from("the answer is no report")),
    }
}

#[test]
fn refused_texts_at_their_origins(rt: HostRuntime) -> Result<(), Fail> {
    let alloc = rt.alloc();
    let text = "# 7 \"b.h\"\nstruct s x;\n";
    let at = said(alloc, text, "pikos: refused: unsupported struct at 2:1\n")?;
    assert!(rt;
        at.as_slice()
            == b"b.h:7:1: refused: unsupported struct\n    struct s x;\n    ^\n".as_slice()
    );
    let no_place = said(alloc, text, "pikos: refused: no entry main\n")?;
    assert!(rt; no_place.as_slice() == b"a.c: refused: no entry main\n".as_slice());
    assert!(rt; refusal(alloc, b"a.c", b"", TABLE_REPORT.as_bytes())?.is_none());
    Ok(())
}

#[test]
fn each_form_is_read(rt: HostRuntime) -> Result<(), Fail> {
    assert!(rt; is_read(rt.alloc(), RING_REPORT.as_bytes())?);
    assert!(rt; is_read(rt.alloc(), FORMS.as_bytes())?);
    Ok(())
}

#[test]
fn a_report_that_is_cut_is_refused(rt: HostRuntime) -> Result<(), Fail> {
    let report = FORMS.as_bytes();
    for end in 0..report.len() {
        assert!(rt; !is_read(rt.alloc(), &report[..end])?);
    }
    Ok(())
}

// What stands for a piece of the report above, and is none; and what of it is right still.
const WRONG: [(&str, &str, &str); 19] = [
    ("pikos 1", "pikos 2", "pikos "),
    ("points 40", "points 040", "points 0"),
    ("elements 44", "elements +44", "elements "),
    ("main>f@4:2>g@30:12 1", "main>f@4:2>@30:12 1", "main>f@4:2>"),
    ("main>f@4:2>g@30:12 1", "main>f@4:2>g 1", "main>f@4:2>g"),
    (
        "18446744073709551615:1",
        "18446744073709551616:1",
        "1844674407370955161",
    ),
    ("payload[]", "payload[-2]", "payload["),
    ("key[0]", "key[00]", "key[0"),
    ("key[0]", "key[0]]", "key[0]"),
    (
        "key[18446744073709551615]",
        "key[18446744073709551616]",
        "key[1844674407370955161",
    ),
    ("  length [0,32]", " length [0,32]", " "),
    ("[0,32]", "[-0,32]", "[-"),
    ("2Z+1", "2Z1", "2Z"),
    ("length + i <= 4", "length * i <= 4", "length "),
    ("-length - i", "-length + i", "-length "),
    (
        "point 21 main 3:1\n",
        "point 21 main 3:1\n\n",
        "point 21 main 3:1\n",
    ),
    (
        "  unreachable\n",
        "  unreachable\n  x [0,1] 1Z+0\n",
        "  unreachable\n",
    ),
    ("shift unknown", "shifts unknown", "shift"),
    (
        "unreachable 1\n",
        "unreachable 1\nresult safe 0 unknown 1 unreachable 1\n",
        "unreachable 1\n",
    ),
];

#[test]
fn a_report_with_a_wrong_piece_is_refused(rt: HostRuntime) -> Result<(), Fail> {
    for (piece, wrong, _) in &WRONG {
        let (front, back) = FORMS.split_once(*piece).ok_or("the report has the piece")?;
        let report = format!(in rt.alloc(); "{front}{wrong}{back}")?;
        assert!(rt; !is_read(rt.alloc(), report.as_bytes())?, "{wrong}");
    }
    Ok(())
}

// How many bytes stand behind the last newline.
fn last_length(text: &[u8]) -> usize {
    text.iter().rev().take_while(|b| **b != b'\n').count()
}

#[test]
fn a_wrong_piece_goes_wrong_at_its_first_wrong_byte(rt: HostRuntime) -> Result<(), Fail> {
    for (piece, wrong, right) in &WRONG {
        let (front, back) = FORMS.split_once(*piece).ok_or("the report has the piece")?;
        let report = format!(in rt.alloc(); "{front}{wrong}{back}")?;
        let before = format!(in rt.alloc(); "{front}{right}")?;
        let byte = first_wrong_byte(rt.alloc(), report.as_bytes())?;
        assert!(rt; byte == last_length(before.as_bytes()), "{wrong}");
    }
    Ok(())
}

#[test]
fn a_report_that_is_cut_goes_wrong_at_its_end(rt: HostRuntime) -> Result<(), Fail> {
    let report = FORMS.as_bytes();
    for end in 0..report.len() {
        let front = &report[..end];
        assert!(rt; first_wrong_byte(rt.alloc(), front)? == last_length(front));
    }
    Ok(())
}
