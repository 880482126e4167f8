ghost use Rattle.std.specs.Prelude.{◌≡◌, ◌≤◌, ◌<◌, ◌+◌, length, IfOk};
ghost use Rattle.im_hash_ahead.specs.Facts.{AreFacts};

use crate::facts::Facts;
use crate::leads::{Fields, Lead, fields_at, part_at};
use crate::rows::Rows;
use crate::values::Values;
use arrayvec::ArrayVec;
use im_digest::{D32, Hash32};
use im_model::trees::split;
use im_octet::buffers::append;
use im_octet::fields::{eight, four, two};
use std::alloc::{AllocError, Global};

// The version of a header's form.
const VERSION: u16 = 1;

// The root over the first leaves that was made last, and how many they are.
#[derive(Clone, Copy)]
struct LastRoot {
    bl: u64,
    root: D32,
}

/// What is hashed of records that follow each other: each value that is neither long nor empty, each entry, the tree over the
/// entries, the root of the tree that the transaction was placed over, the inner digest and the Alh. Where memory is short, some of
/// it.
pub(crate) fn notes_of<H: Hash32>(
    alloc: Global,
    hash: &H,
    log: &[u8],
    values: &Values,
    rows: &Rows,
    leads: &[Lead],
) -> Facts
    ensures { AreFacts (H.digest hash.now) result }
{
    let mut facts = Facts::with_room(alloc, room_of(leads));
    let mut last = LastRoot {
        bl: 0,
        root: [0; 32],
    };
    for lead in leads {
        if note(alloc, hash, log, values, rows, lead, &mut last, &mut facts).is_err() {
            break;
        }
    }
    facts
}

// About how many strings are hashed of records.
fn room_of(leads: &[Lead]) -> usize {
    let mut room = 0usize;
    for lead in leads {
        room = room
            .saturating_add(14)
            .saturating_add(lead.entries.saturating_mul(3));
    }
    room
}

// What is hashed of a record, as far as it can be told, in the order in which it is looked for.
fn note<H: Hash32>(
    alloc: Global,
    hash: &H,
    log: &[u8],
    values: &Values,
    rows: &Rows,
    lead: &Lead,
    last: &mut LastRoot,
    facts: &mut Facts,
) -> Result<(), AllocError>
    ensures { AreFacts (H.digest hash.now) facts.old → AreFacts (H.digest hash.now) facts.new }
{
    let digests = note_entries(alloc, hash, log, values, lead, facts)?;
    if digests.is_empty() {
        return Ok(());
    }
    note_header(hash, log, rows, lead, digests.as_slice(), last, facts)
}

// The root of the tree that the record was placed over, the tree over the entries with these digests, the inner digest and the
// Alh, as far as they can be told.
fn note_header<H: Hash32>(
    hash: &H,
    log: &[u8],
    rows: &Rows,
    lead: &Lead,
    digests: &[D32],
    last: &mut LastRoot,
    facts: &mut Facts,
) -> Result<(), AllocError>
    requires { 0 < length digests.now }
    ensures { AreFacts (H.digest hash.now) facts.old → AreFacts (H.digest hash.now) facts.new }
{
    let root = note_root(hash, rows, lead.bl, last, facts)?;
    let eh = note_tree(hash, digests, facts)?;
    let Some(root) = root else {
        return Ok(());
    };
    let Some(ts) = part_at(log, lead.at.saturating_add(8), 8) else {
        return Ok(());
    };
    let inner = note_inner(hash, ts, lead, &eh, &root, facts)?;
    facts.hash(hash, &eight(lead.id), &lead.before, &inner)?;
    Ok(())
}

// The entries, each behind its value: their digests; none where they can't be told.
fn note_entries<H: Hash32>(
    alloc: Global,
    hash: &H,
    log: &[u8],
    values: &Values,
    lead: &Lead,
    facts: &mut Facts,
) -> Result<Vec<D32>, AllocError>
    ensures { AreFacts (H.digest hash.now) facts.old → AreFacts (H.digest hash.now) facts.new }
{
    let mut digests = Vec::with_capacity(alloc, lead.entries)?;
    let mut at = lead.at.saturating_add(28);
    for i in 0..lead.entries {
        let Some(fields) = fields_at(log, at) else {
            return Ok(Vec::new(alloc));
        };
        let number = lead.values.saturating_add(i);
        note_both(hash, values, number, &fields, &mut digests, facts)?;
        at = fields.end;
    }
    Ok(digests)
}

// The value of this number, and the entry with these fields, whose digest joins the others.
fn note_both<H: Hash32>(
    hash: &H,
    values: &Values,
    number: usize,
    fields: &Fields,
    digests: &mut Vec<D32>,
    facts: &mut Facts,
) -> Result<(), AllocError>
    requires md { length fields.now.md.now ≤ 2 }
    requires key { length fields.now.key.now ≤ 1024 }
    ensures { AreFacts (H.digest hash.now) facts.old → AreFacts (H.digest hash.now) facts.new }
{
    note_value(hash, values, number, facts)?;
    digests.push(note_entry(hash, fields, facts)?)?;
    Ok(())
}

// The value of this number, where it is there and isn't empty: an empty one stands in the place of a long one too.
fn note_value<H: Hash32>(
    hash: &H,
    values: &Values,
    number: usize,
    facts: &mut Facts,
) -> Result<(), AllocError>
    ensures { AreFacts (H.digest hash.now) facts.old → AreFacts (H.digest hash.now) facts.new }
{
    match values.at(number) {
        Some([]) | None => Ok(()),
        Some(value) => facts.note(hash, value),
    }
}

// An entry: its digest, of `mdLen 2 | md | keyLen 2 | key | H(value) 32`.
fn note_entry<H: Hash32>(hash: &H, fields: &Fields, facts: &mut Facts) -> Result<D32, AllocError>
    requires md { length fields.now.md.now ≤ 2 }
    requires key { length fields.now.key.now ≤ 1024 }
    ensures { AreFacts (H.digest hash.now) facts.old → AreFacts (H.digest hash.now) facts.new }
{
    let mut head = ArrayVec::<u8, 8>::new();
    append(&mut head, &two(fields.md.len() as u16));
    append(&mut head, fields.md);
    append(&mut head, &two(fields.key.len() as u16));
    facts.hash(hash, head.as_slice(), fields.key, fields.hval)
}

// The tree over digests, each leaf and each node: its root.
fn note_tree<H: Hash32>(hash: &H, digests: &[D32], facts: &mut Facts) -> Result<D32, AllocError>
    requires { 0 < length digests.now }
    ensures { AreFacts (H.digest hash.now) facts.old → AreFacts (H.digest hash.now) facts.new }
{
    if digests.len() == 1 {
        return facts.hash(hash, &[0], &digests[0], &[]);
    }
    let (left, right) = digests.split_at(split(digests.len()));
    let left = note_tree(hash, left, facts)?;
    let right = note_tree(hash, right, facts)?;
    facts.hash(hash, &[1], &left, &right)
}

// The root over the first leaves. That of the record before isn't made again, and of no leaves it is zeros.
fn note_root<H: Hash32>(
    hash: &H,
    rows: &Rows,
    bl: u64,
    last: &mut LastRoot,
    facts: &mut Facts,
) -> Result<Option<D32>, AllocError>
    ensures { AreFacts (H.digest hash.now) facts.old → AreFacts (H.digest hash.now) facts.new }
{
    if bl == last.bl {
        return Ok(Some(last.root));
    }
    let root = root_over(hash, rows, bl, facts)?;
    if let Some(root) = root {
        *last = LastRoot { bl, root };
    }
    Ok(root)
}

// The same, made again: a node for each digit one of their number but one, from the smallest part on.
fn root_over<H: Hash32>(
    hash: &H,
    rows: &Rows,
    bl: u64,
    facts: &mut Facts,
) -> Result<Option<D32>, AllocError>
    ensures { AreFacts (H.digest hash.now) facts.old → AreFacts (H.digest hash.now) facts.new }
{
    let mut rest = bl;
    let mut root: Option<D32> = None;
    for level in 0..rows.levels() {
        if rest % 2 == 1 {
            let Some(part) = rows.at(level, rest - 1) else {
                return Ok(None);
            };
            root = Some(behind_part(hash, part, root, facts)?);
        }
        rest /= 2;
    }
    Ok(if rest > 0 { None } else { root })
}

// The node of a part of a tree and what stands behind it, and the part alone where nothing does.
fn behind_part<H: Hash32>(
    hash: &H,
    part: D32,
    behind: Option<D32>,
    facts: &mut Facts,
) -> Result<D32, AllocError>
    ensures { AreFacts (H.digest hash.now) facts.old → AreFacts (H.digest hash.now) facts.new }
{
    match behind {
        Some(right) => facts.hash(hash, &[1], &part, &right),
        None => Ok(part),
    }
}

// The inner digest: of `Ts 8 | Version 2 | mdLen 2 | NEntries 4 | Eh 32 | BlTxID 8 | BlRoot 32`.
fn note_inner<H: Hash32>(
    hash: &H,
    ts: &[u8],
    lead: &Lead,
    eh: &D32,
    root: &D32,
    facts: &mut Facts,
) -> Result<D32, AllocError>
    requires { length ts.now ≡ 8 }
    ensures { AreFacts (H.digest hash.now) facts.old → AreFacts (H.digest hash.now) facts.new }
{
    let mut front = ArrayVec::<u8, 12>::new();
    append(&mut front, ts);
    append(&mut front, &two(VERSION));
    append(&mut front, &two(0));
    let mut back = ArrayVec::<u8, 76>::new();
    append(&mut back, &four(lead.entries.min(1024) as u32));
    append(&mut back, eh);
    append(&mut back, &eight(lead.bl));
    append(&mut back, root);
    facts.hash(hash, front.as_slice(), &[], back.as_slice())
}
