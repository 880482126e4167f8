//! The script of the generator.

ghost use Rattle.std.specs.Prelude.{◌≡◌, ◌≤◌, ◌++◌, codes, IfOk, OnOk};
ghost use Rattle.std.specs.Fmt.{decimal};
ghost use Rattle.im_gen.specs.Generator.{advance_text, asked_text, behind_text, item_text, key_of, next_state, own_text, script_text, source_of};

use im_text::writing::push_number;
use std::alloc::{AllocError, Global};

// The multiplier and the increment of the generator: those of MMIX, by Knuth.
const MULTIPLIER: u64 = 6_364_136_223_846_793_005;

const INCREMENT: u64 = 1_442_695_040_888_963_407;

// One step of the generator of numbers.
fn next_state(x: u64) -> u64
    ensures { result ≡ next_state x }
{
    x.wrapping_mul(MULTIPLIER).wrapping_add(INCREMENT)
}

// The number in a key.
fn key_of(x: u64) -> u64
    ensures { result ≡ key_of x }
{
    x / 8_589_934_592 % 1000
}

// Adds a line that sets a key.
fn push_set(alloc: Global, out: &mut Vec<u8>, i: u64, key: u64) -> Result<(), AllocError>
    ensures { OnOk result (out.new.items ≡ out.old.items ++ codes "a: set k" ++ decimal key ++ codes "=v" ++ decimal i ++ codes "\n") }
{
    push_number(alloc, out, b"a: set k", key)?;
    push_number(alloc, out, b"=v", i)?;
    out.extend_from_slice(b"\n")
}

// Adds a line that deletes a key.
fn push_deletion(alloc: Global, out: &mut Vec<u8>, key: u64) -> Result<(), AllocError>
    ensures { OnOk result (out.new.items ≡ out.old.items ++ codes "a: del k" ++ decimal key ++ codes "\n") }
{
    push_number(alloc, out, b"a: del k", key)?;
    out.extend_from_slice(b"\n")
}

// Adds line i, whose key has this number.
fn push_own(alloc: Global, out: &mut Vec<u8>, i: u64, key: u64) -> Result<(), AllocError>
    ensures { OnOk result (out.new.items ≡ out.old.items ++ own_text i key) }
{
    match i % 16 {
        0 => out.extend_from_slice(b"a: link 15\n"),
        8 => push_deletion(alloc, out, key),
        _ => push_set(alloc, out, i, key),
    }
}

// The transaction from which advance j leads.
fn source_of(j: u64) -> u64
    requires some { 1 ≤ j }
    requires few { j ≤ 1562 }
    ensures { result ≡ source_of j }
{
    if j == 1 { 1 } else { 60 * (j - 1) }
}

// Adds advance j.
fn push_advance(alloc: Global, out: &mut Vec<u8>, j: u64) -> Result<(), AllocError>
    requires some { 1 ≤ j }
    requires few { j ≤ 1562 }
    ensures { OnOk result (out.new.items ≡ out.old.items ++ advance_text j) }
{
    push_number(alloc, out, b"a: advance ", source_of(j))?;
    push_number(alloc, out, b" ", 60 * j)?;
    out.extend_from_slice(b"\n")
}

// Adds an entry of its target.
fn push_item(alloc: Global, out: &mut Vec<u8>, j: u64) -> Result<(), AllocError>
    requires { j ≤ 1562 }
    ensures { OnOk result (out.new.items ≡ out.old.items ++ item_text j) }
{
    push_number(alloc, out, b"a: item ", 60 * j)?;
    out.extend_from_slice(b" 0\n")
}

// Adds both.
fn push_asked(alloc: Global, out: &mut Vec<u8>, j: u64) -> Result<(), AllocError>
    requires some { 1 ≤ j }
    requires few { j ≤ 1562 }
    ensures { OnOk result (out.new.items ≡ out.old.items ++ asked_text j) }
{
    push_advance(alloc, out, j)?;
    push_item(alloc, out, j)
}

// Adds what stands behind line i.
fn push_behind(alloc: Global, out: &mut Vec<u8>, i: u64) -> Result<(), AllocError>
    requires some { 1 ≤ i }
    requires few { i ≤ 100000 }
    ensures { OnOk result (out.new.items ≡ out.old.items ++ behind_text i) }
{
    if i == 1 {
        return out.extend_from_slice(b"a: state\n");
    }
    if i % 64 == 0 {
        return push_asked(alloc, out, i / 64);
    }
    Ok(())
}

/// The script of n lines, at most 100,000, with what stands behind them. Its only error is want of memory.
pub fn script_of(alloc: Global, n: u64) -> Result<Vec<u8>, AllocError>
    requires { n ≤ 100000 }
    ensures { IfOk result (λ text. text.items ≡ script_text n) }
{
    let mut text = Vec::new(alloc);
    let mut state = 1;
    for i in 0..n {
        let next = next_state(state);
        push_own(alloc, &mut text, i + 1, key_of(next))?;
        push_behind(alloc, &mut text, i + 1)?;
        state = next;
    }
    Ok(text)
}
