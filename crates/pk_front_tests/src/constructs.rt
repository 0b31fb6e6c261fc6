// Texts and their first constructs.

use pk_constructs::first_unsupported;
use pk_lex::lex;
use std::test::Fail;

// Each text with the first construct that isn't analysed and its place, or nothing where there is none.
const TEXTS: [(&str, &str); 66] = [
    ("float x; int", "float at 1:1"),
    ("#define X 1\nint main(void){}\n", "directive at 1:1"),
    ("enum e{A};", ""),
    ("int main(void){static int x;}", ""),
    ("typedef int T;", ""),
    ("int main(void){typedef int T;return 0;}", "typedef at 1:16"),
    ("int x; 1e5", "floating at 1:8"),
    ("0x1.8p3", "floating at 1:1"),
    ("#pragmatic", "directive at 1:1"),
    ("#", "directive at 1:1"),
    ("int *p;", "pointer at 1:5"),
    ("a&&*b", "pointer at 1:4"),
    ("*", "pointer at 1:1"),
    ("int a[]", "brackets at 1:7"),
    ("int a[1][2]", "arrays at 1:9"),
    ("={[0]", "designator at 1:3"),
    ("a,[", "designator at 1:3"),
    ("{}typedef x;{typedef", "typedef at 1:14"),
    ("}{typedef", "typedef at 1:3"),
    ("x ... y", "... at 1:3"),
    ("return *p", "pointer at 1:8"),
    ("int *p", "pointer at 1:5"),
    ("} } x = 5 5 \"s\"", "string at 1:13"),
    ("}{ typedef", "typedef at 1:4"),
    ("int f(void){(int)*p;}", ""),
    ("a && *p", "pointer at 1:6"),
    ("&&x", ""),
    ("const *p", "pointer at 1:7"),
    ("a = *b", "pointer at 1:5"),
    ("x++ * y", ""),
    ("x-- & y", ""),
    ("5 * 'a'", ""),
    ("] * x", ""),
    ("f() & 1", ""),
    ("static int x; int f(void){}static int y;", ""),
    ("{{}} static {}", ""),
    ("{{} typedef", "typedef at 1:5"),
    ("int f(void){x = {1,[2] = 3};}", "designator at 1:20"),
    ("a[1] [2]", "arrays at 1:6"),
    ("a[ ]", "brackets at 1:4"),
    ("a.b", ". at 1:2"),
    ("a->b", "-> at 1:2"),
    ("x[0].y", ". at 1:5"),
    ("_Bool b", "_Bool at 1:1"),
    ("long _Complex z", "_Complex at 1:6"),
    ("struct s", "struct at 1:1"),
    ("union u", "union at 1:1"),
    ("enum e", ""),
    ("volatile int v", "volatile at 1:1"),
    ("inline int f", "inline at 1:1"),
    ("register int r", "register at 1:1"),
    ("auto int a", "auto at 1:1"),
    ("sizeof x", "sizeof at 1:1"),
    ("asm", "asm at 1:1"),
    ("__asm__", "__asm__ at 1:1"),
    ("__attribute__", "__attribute__ at 1:1"),
    ("__extension__", "__extension__ at 1:1"),
    ("__inline", "__inline at 1:1"),
    ("__restrict", "__restrict at 1:1"),
    ("restrict", "restrict at 1:1"),
    ("double d", "double at 1:1"),
    ("_Imaginary i", "_Imaginary at 1:1"),
    ("&x", "pointer at 1:1"),
    ("x = (&y)", "pointer at 1:6"),
    ("/ * x", "pointer at 1:3"),
    ("int a[3] = {1, 2}; a[0] = -1;", ""),
];

#[test]
fn texts(rt: HostRuntime) -> Result<(), Fail> {
    for (text, expected) in &TEXTS {
        let tokens = lex(rt.alloc(), text.as_bytes())?;
        let found = match first_unsupported(tokens.as_slice()) {
            Some((construct, at)) => format!(in rt.alloc(); "{construct} at {at}")?,
            None => String::new(rt.alloc()),
        };
        assert!(rt; found.as_str() == *expected, "{text}");
    }
    Ok(())
}
