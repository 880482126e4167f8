//! The line that `gen` writes.

ghost use Rattle.std.specs.Prelude.{◌≡◌, ◌≤◌, IfOk};
ghost use Rattle.im_gen.specs.Generator.{accepted_of, told_line, linked_of, placed_of};

use im_text::writing::{push_hex, push_number};
use std::alloc::{AllocError, Global};

/// How many transactions the script of n lines places.
pub fn placed_of(n: u64) -> u64
    ensures { result ≡ placed_of n }
{
    n - n / 16
}

/// How many transactions are in the tree at its end.
pub fn linked_of(n: u64) -> u64
    requires { n ≤ 100000 }
    ensures { result ≡ linked_of n }
{
    15 * (n / 16)
}

/// How many of its replies a client accepts.
pub fn accepted_of(n: u64) -> u64
    requires { n ≤ 100000 }
    ensures { result ≡ accepted_of n }
{
    if n == 0 { 0 } else { 1 + 2 * (n / 64) }
}

/// The line that tells of the script of n lines, with the Alh of its last transaction, 32 octets. Its only error is want of
/// memory.
pub fn line_of(alloc: Global, n: u64, alh: &[u8]) -> Result<Vec<u8>, AllocError>
    requires { n ≤ 100000 }
    ensures { IfOk result (λ line. line.items ≡ told_line n alh.now) }
{
    let mut line = Vec::new(alloc);
    push_number(alloc, &mut line, b"gen ", n)?;
    push_number(alloc, &mut line, b" tx ", placed_of(n))?;
    push_number(alloc, &mut line, b" linked ", linked_of(n))?;
    push_number(alloc, &mut line, b" accepted ", accepted_of(n))?;
    push_hex(alloc, &mut line, b" alh ", alh)?;
    line.extend_from_slice(b"\n")?;
    Ok(line)
}
