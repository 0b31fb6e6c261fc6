// Heads of certificates, and the first byte with which none goes on. Worked by hand.

use pk_cert::read_head;
use std::alloc::Global;
use std::fmt::Write;
use std::process::Abort;
use std::test::Fail;

// Each text with its head (the octagon's size, the entry, the text's length and the head's), or with the first wrong byte.
const HEADS: [(&str, &str); 24] = [
    (
        "pikos-cert 1 16 16 main\nint main(void){}\n0 0 0 0\n",
        "16 main 16 41",
    ),
    ("pikos-cert 1 0 0 f\n\n", "0 f 0 20"),
    ("pikos-cert 1 0 64 _9\n\nbot", "64 _9 0 22"),
    ("pikos-cert 1 3 7 main\n\n\n\n\n", "7 main 3 26"),
    ("", "byte 0"),
    ("pikos-cert", "byte 10"),
    ("pikos-cert 2", "byte 11"),
    ("pikos_cert", "byte 5"),
    ("pikos-cert 1 ", "byte 13"),
    ("pikos-cert 1 x", "byte 13"),
    ("pikos-cert 1 -1", "byte 13"),
    ("pikos-cert 1 00", "byte 14"),
    ("pikos-cert 1 4194304 0 f\n", "byte 25"),
    ("pikos-cert 1 4194305 0 f\n", "byte 19"),
    ("pikos-cert 1 41943040", "byte 20"),
    ("pikos-cert 1 5000000", "byte 19"),
    ("pikos-cert 1 0 65", "byte 16"),
    ("pikos-cert 1 0 641", "byte 17"),
    ("pikos-cert 1 0 7 ", "byte 17"),
    ("pikos-cert 1 0 7 1f", "byte 17"),
    ("pikos-cert 1 0 7 f-", "byte 18"),
    ("pikos-cert 1 0 7 f\nx", "byte 19"),
    ("pikos-cert 1 3 0 f\nab\n", "byte 22"),
    ("pikos-cert 1 1 0 f\nabc", "byte 20"),
];

// What is told of bytes.
fn told(alloc: Global, text: &str) -> Result<String, Fail> {
    let mut told = String::new(alloc);
    match read_head(text.as_bytes()) {
        Err(byte) => write!(told, "byte {byte}")?,
        Ok(head) => {
            let entry = std::str::from_utf8(head.entry).map_err(|_| "the entry is text")?;
            write!(
                told,
                "{} {entry} {} {}",
                head.oct,
                head.text.len(),
                head.len
            )?;
        }
    }
    Ok(told)
}

#[test]
fn heads(rt: HostRuntime) -> Result<(), Fail> {
    for row in &HEADS {
        let (text, wanted) = *row;
        assert!(rt; told(rt.alloc(), text)?.as_str() == wanted, "{text}");
    }
    Ok(())
}
