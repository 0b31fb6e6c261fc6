// Pages, by what stands on them.

use crate::texts::{PATHS, PATHS_REPORT, TABLE, TABLE_REPORT, refused, shown};
use pk_page::page;
use std::alloc::Global;
use std::process::Abort;
use std::test::Fail;

fn table_page(alloc: Global) -> Result<Vec<u8>, Fail> {
    let shown = [shown(alloc, b"examples/table.c", TABLE, TABLE_REPORT)?];
    Ok(page(alloc, &shown, &[])?)
}

fn paths_page(alloc: Global) -> Result<Vec<u8>, Fail> {
    let shown = [shown(alloc, b"src/odd name.c", PATHS, PATHS_REPORT)?];
    let refused = [refused(alloc, b"<b>.c", "x", "pikos: unsupported & at 1:1\n")?];
    Ok(page(alloc, &shown, &refused)?)
}

// Each piece stands on the page so often.
fn expect(rt: &impl Abort, page: &[u8], rows: &[(&str, usize)]) -> Result<(), Fail> {
    let page = std::str::from_utf8(page)?;
    for (piece, count) in rows {
        assert!(rt;
            page.split(*piece).count().wrapping_sub(1) == *count,
            "{piece}"
        );
    }
    Ok(())
}

const TABLE_PIECES: [(&str, usize); 12] = [
    ("<!DOCTYPE html>\n", 1),
    (
        "<a href=\"#f0-21\">examples/table.c:10:21</a>: table[at + 1] may be out of bounds: the index is in [1,9]",
        1,
    ),
    (
        "<li>in <code>main</code>, which calls <code>look_up</code> at <a href=\"#f0-28\">",
        1,
    ),
    (">examples/table.c:17:12</a>: [1,9]</li>", 1),
    (
        "<p class=\"line\" id=\"f0-21\"><span>10</span><code>    int high = table<mark>",
        1,
    ),
    ("table<mark>[</mark>at <u>+</u> 1];</code></p>", 1),
    (
        "<tr><th scope=\"row\"><code>look_up</code></th><td>11</td><td>1</td><td>0</td></tr>",
        1,
    ),
    ("<mark>[</mark>", 1),
    ("<h4><code>examples/verifier.h</code></h4>", 1),
    ("<h4><code>examples/table.c</code></h4>", 2),
    ("&gt;= 0 &amp;&amp; x &lt;= 256", 1),
    ("# 1 ", 0),
];

#[test]
fn table_is_shown(rt: HostRuntime) -> Result<(), Fail> {
    let page = table_page(rt.alloc())?;
    expect(&rt, &page, &TABLE_PIECES)
}

const PATHS_PIECES: [(&str, usize); 12] = [
    ("&lt;&amp;\\&quot;&#39;&gt;", 1),
    ("a <mark>/</mark> b", 1),
    (
        "<h4>Loop at <a href=\"#f0-7\">src/odd name.c:4:5</a>, in <code>main</code></h4>",
        2,
    ),
    ("</h4>\n<p><code>i in [0, 3]</code></p>", 1),
    ("<p><code>s in [1, 7] of the form 2k + 1</code></p>", 1),
    ("<p><code>i - s &le; 0</code></p>", 1),
    ("<p>No run comes here.</p>", 1),
    ("the divisor may be 0: it lies in [-4,9]", 1),
    (
        "<h2>&lt;b&gt;.c:1:1</h2>\n<p><strong>Refused</strong>: unsupported &amp;</p>",
        1,
    ),
    ("<b>", 0),
    (
        "<tr><th scope=\"row\"><code>ratio</code></th><td>0</td><td>1</td><td>1</td></tr>",
        1,
    ),
    (
        "<tr><th scope=\"row\"><code>main</code></th><td>1</td><td>1</td><td>0</td></tr>",
        1,
    ),
];

#[test]
fn paths_are_shown(rt: HostRuntime) -> Result<(), Fail> {
    let page = paths_page(rt.alloc())?;
    expect(&rt, &page, &PATHS_PIECES)
}
