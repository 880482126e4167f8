//! Paths carried over a consistency list, and things compared that one digest was shown for, by the sum of
//! octets: two strings of one sum are easily had.
//!
//! Of the digests 1 to 7 the lists and roots are those of `trees`. The path of leaf 1 among three is 2, 3. A node
//! over 1 and 3 is 5, and one over it and 2 is 8 too, as the root of three is; so the path 3, 2 passes, and its
//! node next to the root is of 5 and 2, the list's of 4 and 3.

ghost use Rattle.std.specs.Prelude.{◌≡◌, []};
ghost use Rattle.im_digest.specs.Digests.{sum_digest};
ghost use Rattle.im_model.specs.Entries.{entry_digest};
ghost use Rattle.im_model.specs.Paths.{up};

use crate::values::{are, digest, entry_of};
use im_atree::growths::terms_between;
use im_digest::{D32, Sum};
use im_entry::digests::digest as digest_of;
use im_forge::entries::same_entry;
use im_forge::headers::same_header;
use im_forge::nodes::same_node;
use im_forge::same::Same;
use im_header::alh;
use im_model::entries::Entry;
use im_model::growth::older_root;
use im_model::headers::Header;
use im_model::limits::Metadata;
use im_model::paths::root_by_path;
use im_model::trees::node_digest;
use im_mtree::paths::terms_of;
use im_octet::octets::Octets;
use im_pathmove::carried::Carried;
use im_pathmove::walks::carry;
use std::alloc::{AllocError, Global};
use std::test::Fail;

// What the path of leaf i of m is carried to, if path and list have their lengths and one root.
fn carried(
    alloc: Global,
    i: u64,
    path: &[D32],
    m: u64,
    list: &[D32],
) -> Result<Option<Carried>, AllocError> {
    if i < 1 || i > m || m > 6 {
        return Ok(None);
    }
    if path.len() as u64 != terms_of(i - 1, m) {
        return Ok(None);
    }
    if list.len() as u64 != terms_between(m, 7) {
        return Ok(None);
    }
    let leaf = digest(i as u8);
    let root = root_by_path(&Sum, m as usize, (i - 1) as usize, &leaf, path);
    if older_root(&Sum, m as usize, 7, &root, list) != root {
        return Ok(None);
    }
    Ok(Some(carry(alloc, &Sum, i, &leaf, path, m, 7, list)?))
}

// Whether it is the path of these terms.
fn is_path(carried: Option<Carried>, terms: &[u8]) -> bool {
    let same = match &carried {
        Some(Carried::Path(path)) => are(path.as_slice(), terms),
        Some(Carried::Pair(_, _)) | None => false,
    };
    drop(carried);
    same
}

// Whether octets are the string of a node of these two digests.
fn is_node(octets: &[u8], left: u8, right: u8) -> bool {
    let mut node = [0u8; 65];
    node[0] = 1;
    node[32] = left;
    node[64] = right;
    octets == node.as_slice()
}

// A path of a leaf, the tree that it is in, the list from there to the tree of seven, and the path there.
type Row<'a> = (u64, &'a [u8], u64, &'a [u8], &'a [u8]);

static ROWS: &[Row] = &[
    (3, &[4, 4], 4, &[0x0d, 0x14], &[4, 4, 0x14]),
    (1, &[2, 3], 3, &[3, 4, 4, 0x14], &[2, 8, 0x14]),
    (3, &[4], 3, &[3, 4, 4, 0x14], &[4, 4, 0x14]),
];

// The digests of these last octets.
fn digests(alloc: Global, lasts: &[u8]) -> Result<Vec<D32>, AllocError> {
    let mut digests = Vec::new(alloc);
    for last in lasts {
        digests.push(digest(*last))?;
    }
    Ok(digests)
}

fn rows_are_carried(alloc: Global) -> Result<bool, AllocError> {
    let mut same = true;
    for (i, path, m, list, want) in ROWS {
        let path = digests(alloc, path)?;
        let list = digests(alloc, list)?;
        let got = carried(alloc, *i, path.as_slice(), *m, list.as_slice())?;
        let good = is_path(got, want);
        same = same && good;
    }
    Ok(same)
}

// Whether it is a pair of the strings of two nodes, over 5 and 2, and over 4 and 3.
fn is_pair_of_nodes(carried: Option<Carried>) -> bool {
    let same = match &carried {
        Some(Carried::Pair(x, y)) => is_node(x.as_slice(), 5, 2) && is_node(y.as_slice(), 4, 3),
        Some(Carried::Path(_)) | None => false,
    };
    drop(carried);
    same
}

fn another_path_is_a_pair(alloc: Global) -> Result<bool, AllocError> {
    let path = digests(alloc, &[3, 2])?;
    let list = digests(alloc, &[3, 4, 4, 0x14])?;
    let got = carried(alloc, 1, path.as_slice(), 3, list.as_slice())?;
    Ok(is_pair_of_nodes(got))
}

#[test]
fn a_path_is_carried_as_worked(rt: HostRuntime) -> Result<(), Fail> {
    assert!(rt; rows_are_carried(rt.alloc())? && another_path_is_a_pair(rt.alloc())?);
    Ok(())
}

fn nodes_are_compared(alloc: Global) -> Result<bool, AllocError> {
    let node = [digest(5), digest(2)];
    let other = [digest(4), digest(3)];
    if node_digest(&Sum, &node[0], &node[1]) != node_digest(&Sum, &other[0], &other[1]) {
        return Ok(false);
    }
    let compared = same_node(alloc, &Sum, &node[0], &node[1], &other[0], &other[1])?;
    let apart = match &compared {
        Same::Pair { x, y } => is_node(x.as_slice(), 5, 2) && is_node(y.as_slice(), 4, 3),
        Same::Equal => false,
    };
    drop(compared);
    Ok(apart)
}

// The header of transaction 1 of this time and number of entries.
fn header(alloc: Global, ts: i64, nentries: u32) -> Header {
    Header {
        id: 1,
        ts,
        bl_tx_id: 0,
        bl_root: digest(0),
        prev_alh: digest(0),
        version: 1,
        md: Metadata::new(Octets::new(alloc)),
        nentries,
        eh: digest(0x92),
    }
}

// What two headers are, if they have one Alh.
fn compared(alloc: Global, header: &Header, other: &Header) -> Result<Option<Same>, AllocError> {
    if alh(&Sum, header) != alh(&Sum, other) {
        return Ok(None);
    }
    Ok(Some(same_header(alloc, &Sum, header, other)?))
}

// Behind 8 octets of the time, 2 of the version and 2 of a length stand 4 of the number of entries.
fn is_inner(octets: &[u8], ts: u8, nentries: u8) -> bool {
    octets.len() == 88 && octets[7] == ts && octets[9] == 1 && octets[15] == nentries
}

// Whether they are a pair of the inner strings of both.
fn is_pair_of_inners(compared: Option<Same>) -> bool {
    let apart = match &compared {
        Some(Same::Pair { x, y }) => {
            is_inner(x.as_slice(), 0, 2) && is_inner(y.as_slice(), 1, 1)
        }
        Some(Same::Equal) | None => false,
    };
    drop(compared);
    apart
}

fn headers_are_compared(alloc: Global) -> Result<bool, AllocError> {
    let early = header(alloc, 0, 2);
    let late = header(alloc, 1, 1);
    let found = compared(alloc, &early, &late);
    drop(early);
    drop(late);
    Ok(is_pair_of_inners(found?))
}

fn a_header_is_itself(alloc: Global) -> Result<bool, AllocError> {
    let header = header(alloc, 0, 2);
    let compared = compared(alloc, &header, &header);
    drop(header);
    let compared = compared?;
    let equal = matches!(&compared, Some(Same::Equal));
    drop(compared);
    Ok(equal)
}

// The root over one entry, by the empty path.
fn root_over(entry: &Entry) -> D32
    ensures { result ≡ up sum_digest 1 0 (entry_digest sum_digest entry.now) [] }
{
    let leaf = digest_of(&Sum, entry);
    root_by_path(&Sum, 1, 0, &leaf, &[])
}

// Whether two entries of one transaction each are told apart, by the values ab and ba.
fn are_told_apart(alloc: Global, entry: &Entry, other: &Entry) -> Result<bool, AllocError> {
    if root_over(entry) != root_over(other) {
        return Ok(false);
    }
    if terms_of(0, 1) != 0 {
        return Ok(false);
    }
    let compared = same_entry(alloc, &Sum, 1, 0, entry, &[], other, &[])?;
    let apart = match &compared {
        Same::Pair { x, y } => {
            x.as_slice() == b"ab".as_slice() && y.as_slice() == b"ba".as_slice()
        }
        Same::Equal => false,
    };
    drop(compared);
    Ok(apart)
}

// Whether an entry that sets k to ab is told apart from one that sets it to ba.
fn is_told_apart(alloc: Global, entry: &Entry) -> Result<bool, Fail> {
    let other = entry_of(alloc, &(b"", b"k", b"ba"))?;
    let apart = are_told_apart(alloc, entry, &other);
    drop(other);
    Ok(apart?)
}

fn entries_are_compared(alloc: Global) -> Result<bool, Fail> {
    let entry = entry_of(alloc, &(b"", b"k", b"ab"))?;
    let apart = is_told_apart(alloc, &entry);
    drop(entry);
    apart
}

#[test]
fn things_of_one_sum_are_told_apart(rt: HostRuntime) -> Result<(), Fail> {
    let alloc = rt.alloc();
    let headers = headers_are_compared(alloc)? && a_header_is_itself(alloc)?;
    assert!(rt; headers && nodes_are_compared(alloc)? && entries_are_compared(alloc)?);
    Ok(())
}
