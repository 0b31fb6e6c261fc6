// The text of a made program.

ghost use Rattle.std.specs.Prelude.{◌≡◌, ◌+◌, ◌<◌, ◌++◌, OnOk, IfOk};
ghost use Rattle.std.specs.Fmt.{decimal};
ghost use Rattle.pk_gen.specs.Generator.{next_state, drawn as drawn_at, block_line, block, blocks as blocks_of, generated};

use std::alloc::{AllocError, Global};

/// The state after a draw.
pub fn next(state: u32) -> u32
    requires { state < 2147483648 }
    ensures state { result ≡ next_state state }
    ensures range { result < 2147483648 }
{
    ((state as u64 * 1103515245 + 12345) % 2147483648) as u32
}

/// What is drawn as a state is reached.
pub fn drawn(state: u32) -> u32
    ensures { result ≡ drawn_at state }
{
    state / 65536
}

fn write_text(bytes: &mut Vec<u8>, text: &str) -> Result<(), AllocError>
    ensures { OnOk result (bytes.new.items ≡ bytes.old.items ++ text.now) }
{
    bytes.extend_from_slice(text.as_bytes())
}

fn write_number(alloc: Global, bytes: &mut Vec<u8>, number: u32) -> Result<(), AllocError>
    ensures { OnOk result (bytes.new.items ≡ bytes.old.items ++ decimal number) }
{
    let text = format!(in alloc; "{number}")?;
    write_text(bytes, &text)
}

// Writes a line that tells a count once.
fn write_once(
    alloc: Global,
    bytes: &mut Vec<u8>,
    before: &str,
    count: u32,
    after: &str,
) -> Result<(), AllocError>
    ensures { OnOk result (bytes.new.items ≡ bytes.old.items ++ (before.now ++ decimal count ++ after.now)) }
{
    write_text(bytes, before)?;
    write_number(alloc, bytes, count)?;
    write_text(bytes, after)
}

fn write_loops(alloc: Global, bytes: &mut Vec<u8>, count: u32) -> Result<(), AllocError>
    ensures { OnOk result (bytes.new.items ≡ bytes.old.items ++ block_line 3 count) }
{
    write_once(
        alloc,
        bytes,
        "if(__VERIFIER_nondet_int())while(x<",
        count,
        ")x=x+1;else while(i<",
    )?;
    write_once(alloc, bytes, "", count, ")i=i+1;\n")
}

fn write_line(alloc: Global, bytes: &mut Vec<u8>, kind: u32, count: u32) -> Result<(), AllocError>
    requires { kind < 4 }
    ensures { OnOk result (bytes.new.items ≡ bytes.old.items ++ block_line kind count) }
{
    if kind == 0 {
        write_once(alloc, bytes, "for(i=0;i<", count, ";i=i+1)a[i]=x;\n")
    } else if kind == 1 {
        write_once(alloc, bytes, "if(x<", count, ")x=x+1;else x=0;\n")
    } else if kind == 2 {
        write_once(alloc, bytes, "for(i=0;i<", count, ";i=i+1)if(i%2==0)x=i;\n")
    } else {
        write_loops(alloc, bytes, count)
    }
}

// Writes the block made from a state, and gives the state after it.
fn write_block(alloc: Global, bytes: &mut Vec<u8>, state: u32) -> Result<u32, AllocError>
    requires { state < 2147483648 }
    ensures block { OnOk result (bytes.new.items ≡ bytes.old.items ++ block state) }
    ensures state { IfOk result (λ s. s ≡ next_state (next_state state)) }
    ensures range { IfOk result (λ s. s < 2147483648) }
{
    let kind = next(state);
    let count = next(kind);
    write_line(alloc, bytes, drawn(kind) % 4, 1 + drawn(count) % 16)?;
    Ok(count)
}

fn write_blocks(alloc: Global, bytes: &mut Vec<u8>, size: u32, seed: u32) -> Result<(), AllocError>
    requires { seed < 2147483648 }
    ensures { OnOk result (bytes.new.items ≡ bytes.old.items ++ blocks_of size seed) }
{
    let mut state = seed;
    for _ in 0..size {
        state = write_block(alloc, bytes, state)?;
    }
    Ok(())
}

/// The program that a seed below 2147483648 makes, of `size` blocks. Its bytes are C that the analyser takes.
pub fn generate(alloc: Global, seed: u32, size: u32) -> Result<Vec<u8>, AllocError>
    requires { seed < 2147483648 }
    ensures { IfOk result (λ text. text.items ≡ generated seed size) }
{
    let mut bytes = Vec::new(alloc);
    write_text(
        &mut bytes,
        "extern int __VERIFIER_nondet_int(void);\nint main(void){\nint a[16];\nint i=0;\nint x=0;\n",
    )?;
    write_blocks(alloc, &mut bytes, size, seed)?;
    write_text(&mut bytes, "return 0;\n}\n")?;
    Ok(bytes)
}
