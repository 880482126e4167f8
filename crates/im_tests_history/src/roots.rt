//! Roots of hash trees: the plain program on worked values, and the code beside the plain program.
//!
//! By the sum of octets a leaf is its digest, and a node adds 1 to its two parts: so a root is the sum of its
//! leaves, and one more for each node.

ghost use Rattle.std.specs.Prelude.{◌<◌};

use crate::values::{digest, one_to};
use im_digest::{Hash32, Sha, Sum};
use im_model::growth::{newer_root, older_root};
use im_model::paths::root_by_path;
use im_model::trees::{leaf_digest, node_digest, plain_root, split};
use im_mtree::frontiers::Frontier;
use im_mtree::roots::root;

// The root over the digests 1 to 7 by SHA-256, as Python's hashlib gives it.
const BY_SHA: [u8; 32] = [
    0x70, 0x48, 0x54, 0xe2, 0xaf, 0x8f, 0xfd, 0x06, 0x63, 0x0c, 0x51, 0x8e, 0x49, 0x39, 0xed, 0x42,
    0x39, 0x22, 0xe4, 0x74, 0xfa, 0x35, 0xa2, 0xb4, 0x1b, 0x11, 0x7d, 0x87, 0xd8, 0x3a, 0xba, 0x59,
];

// The roots over the first 1 to the first 7 of these digests by the sum of octets.
const BY_SUM: [u8; 7] = [0x01, 0x04, 0x08, 0x0d, 0x13, 0x1a, 0x22];

fn plain_roots_are_as_worked() -> bool {
    let digests = one_to::<7>();
    let mut same = split(7) == 4
        && leaf_digest(&Sum, &digest(7)) == digest(7)
        && node_digest(&Sum, &digest(1), &digest(2)) == digest(4)
        && plain_root(&Sha, &digests) == BY_SHA;
    for (i, sum) in BY_SUM.iter().enumerate() {
        same = same && plain_root(&Sum, &digests[..i + 1]) == digest(*sum);
    }
    same
}

fn plain_paths_lead_to_the_root() -> bool {
    let third_of_four = [digest(0x04), digest(0x04)];
    let last_of_seven = [digest(0x0c), digest(0x0d)];
    root_by_path(&Sum, 4, 2, &digest(3), &third_of_four) == digest(0x0d)
        && root_by_path(&Sum, 7, 6, &digest(7), &last_of_seven) == digest(0x22)
}

fn plain_lists_lead_to_both_roots() -> bool {
    let known = digest(0x22);
    let from_three = [digest(0x03), digest(0x04), digest(0x04), digest(0x14)];
    let from_four = [digest(0x0d), digest(0x14)];
    older_root(&Sum, 3, 7, &known, &from_three) == digest(0x08)
        && newer_root(&Sum, 3, 7, &known, &from_three) == known
        && older_root(&Sum, 4, 7, &known, &from_four) == digest(0x0d)
        && newer_root(&Sum, 4, 7, &known, &from_four) == known
        && older_root(&Sum, 7, 7, &known, &[]) == known
        && newer_root(&Sum, 7, 7, &known, &[]) == known
}

#[test]
fn the_plain_program_gives_the_worked_roots(rt: HostRuntime) {
    let lead = plain_paths_lead_to_the_root() && plain_lists_lead_to_both_roots();
    assert!(rt; lead && plain_roots_are_as_worked());
}

// Whether the root over the first n of the digests 1 to 40 is the plain one, for each n, told afresh and by a
// frontier that grows with them.
fn roots_are_the_plain_ones<H: Hash32>(hash: &H) -> bool {
    let digests = one_to::<40>();
    let mut frontier = Frontier::new();
    let mut same = true;
    for n in 1..41usize {
        let grown = frontier.size() == n as u64 - 1;
        if grown {
            frontier.append(hash, &digests[n - 1]);
            let plain = plain_root(hash, &digests[..n]);
            same = same && frontier.root(hash) == plain && root(hash, &digests[..n]) == plain;
        }
        same = same && grown;
    }
    drop(frontier);
    same
}

// Whether a frontier that takes many digests at once gives the plain root.
fn extended_is_the_plain_one<H: Hash32>(hash: &H) -> bool {
    let digests = one_to::<40>();
    let mut frontier = Frontier::new();
    frontier.extend(hash, &digests[..13]);
    frontier.extend(hash, &[]);
    frontier.extend(hash, &digests[13..]);
    let same = frontier.size() == 40 && frontier.root(hash) == plain_root(hash, &digests);
    drop(frontier);
    same
}

#[test]
fn the_code_gives_the_plain_roots(rt: HostRuntime) {
    let grown = roots_are_the_plain_ones(&Sum) && roots_are_the_plain_ones(&Sha);
    let extended = extended_is_the_plain_one(&Sum) && extended_is_the_plain_one(&Sha);
    assert!(rt; grown && extended);
}
