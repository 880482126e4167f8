//! What a crash may leave of a disk, decided by comparing.

use crate::walks::Step::{self, Faults, Holds, May, Miss, Never, Sync, Tear, Time, Write};
use crate::walks::{files, walk};
use im_disk::calls::Call;
use im_image::within::are_within;
use im_octet::octets::Octets;
use std::alloc::{AllocError, Global};
use std::test::Fail;

// The first two files hold `abcd` and `xy`. Behind these calls a crash may leave each of the images that come first, and none of the
// others.
const IMAGES: &[(&str, &[Step])] = &[
    (
        "nothing was written",
        &[
            May("abcd", "xy"),
            Never("abce", "xy"),
            Never("abc", "xy"),
            Never("abcde", "xy"),
            Never("", "xy"),
            Never("abcd", "xyz"),
            Never("abcd", ""),
        ],
    ),
    (
        "a write inside",
        &[
            // The places 1 and 2 hold any octets.
            Write(0, 1, "BC"),
            May("abcd", "xy"),
            May("aBCd", "xy"),
            May("aBcd", "xy"),
            May("a??d", "xy"),
            Never("zbcd", "xy"),
            Never("aBCz", "xy"),
            Never("aBC", "xy"),
            Never("aBCde", "xy"),
            Never("aBCd", "xz"),
            Never("aBCd", "x"),
        ],
    ),
    (
        "a write past the end",
        &[
            // From the place 3 on two octets: one is old, one is new.
            Write(0, 3, "DE"),
            May("abcd", "xy"),
            May("abcDE", "xy"),
            May("abcD", "xy"),
            May("abc?", "xy"),
            May("abc??", "xy"),
            May("abcdE", "xy"),
            Never("abc", "xy"),
            Never("abcDE?", "xy"),
            Never("abzDE", "xy"),
            Never("", "xy"),
        ],
    ),
    (
        "a write at the end",
        &[
            Write(0, 4, "EF"),
            May("abcd", "xy"),
            May("abcdE", "xy"),
            May("abcd?", "xy"),
            May("abcdEF", "xy"),
            May("abcd??", "xy"),
            Never("abcD", "xy"),
            Never("abcDEF", "xy"),
            Never("abcdEFG", "xy"),
            Never("abc", "xy"),
        ],
    ),
    (
        "two writes overlap",
        &[
            // The places 1, 2 and 3, and 4 past the end.
            Write(0, 1, "BC"),
            Write(0, 2, "XYZ"),
            May("abcd", "xy"),
            May("aBXYZ", "xy"),
            May("aBCd", "xy"),
            May("aBC?", "xy"),
            May("a???", "xy"),
            May("a????", "xy"),
            Never("?bcd", "xy"),
            Never("aBX", "xy"),
            Never("aBXYZ?", "xy"),
        ],
    ),
    (
        "two writes touch",
        &[
            // The places 3 and 4, and 5.
            Write(0, 3, "DE"),
            Write(0, 5, "F"),
            May("abcd", "xy"),
            May("abcDE", "xy"),
            May("abcDEF", "xy"),
            May("abc???", "xy"),
            May("abc?", "xy"),
            Never("ab?d", "xy"),
            Never("abc", "xy"),
            Never("abcDEFG", "xy"),
        ],
    ),
    (
        "two files were written",
        &[
            Write(0, 0, "A"),
            Write(1, 1, "YZ"),
            May("abcd", "xy"),
            May("Abcd", "xYZ"),
            May("?bcd", "xy"),
            May("abcd", "x?"),
            May("Abcd", "x??"),
            Never("A?cd", "xy"),
            Never("abcd", "?y"),
            Never("abcd", "x"),
            Never("abcd", "xYZ?"),
            Never("Abcde", "xYZ"),
        ],
    ),
    (
        "a write failed",
        &[
            // It was to write the places 3, and 4 and 5 past the end.
            Tear(0, 3, "###"),
            May("abcd", "xy"),
            May("abc?", "xy"),
            May("abc??", "xy"),
            May("abc???", "xy"),
            Never("ab?d", "xy"),
            Never("abc", "xy"),
            Never("abc????", "xy"),
            Never("abcd", "x"),
        ],
    ),
    (
        "a write behind one that failed",
        &[
            // Reads still give four octets, so the next write begins at 4.
            Tear(0, 2, "#"),
            Write(0, 4, "E"),
            May("abcd", "xy"),
            May("ab?d", "xy"),
            May("abcdE", "xy"),
            May("ab?d?", "xy"),
            Never("a?cd", "xy"),
            Never("abc", "xy"),
            Never("abcDE", "xy"),
            Never("abcdEF", "xy"),
        ],
    ),
    (
        "a sync failed",
        &[
            // Nothing became durable by it.
            Write(0, 0, "A"),
            Miss,
            May("abcd", "xy"),
            May("Abcd", "xy"),
            May("?bcd", "xy"),
            Never("A?cd", "xy"),
            Never("Abc", "xy"),
            Never("Abcde", "xy"),
        ],
    ),
    (
        "a sync came after the writes",
        &[
            // Of both files the new content is left, and not the old.
            Write(0, 4, "EF"),
            Write(1, 0, "X"),
            Sync,
            May("abcdEF", "Xy"),
            Never("abcd", "xy"),
            Never("abcdE", "Xy"),
            Never("abcdE?", "Xy"),
            Never("abcdEF", "xy"),
            Never("abcdEFG", "Xy"),
            Never("?bcdEF", "Xy"),
        ],
    ),
    (
        "a sync came after pieces one over the other",
        &[
            // What was written last stands.
            Write(0, 2, "CDEF"),
            Write(0, 3, "xy"),
            Write(0, 0, "A"),
            Sync,
            May("AbCxyF", "xy"),
            Never("AbCDEF", "xy"),
            Never("abCxyF", "xy"),
            Never("AbCxyf", "xy"),
            Never("AbCxy", "xy"),
            Never("abcd", "xy"),
        ],
    ),
    (
        "a sync came after a write that failed",
        &[
            Tear(0, 0, "#########"),
            Sync,
            May("abcd", "xy"),
            Never("?bcd", "xy"),
            Never("abcd?", "xy"),
        ],
    ),
    (
        "a write came after a sync",
        &[
            // The place 1 alone holds any octet.
            Write(0, 0, "AB"),
            Sync,
            Write(0, 1, "Z"),
            May("ABcd", "xy"),
            May("AZcd", "xy"),
            May("A?cd", "xy"),
            Never("abcd", "xy"),
            Never("aZcd", "xy"),
            Never("AZ?d", "xy"),
            Never("AZc", "xy"),
            Never("AZcde", "xy"),
        ],
    ),
    (
        "a second sync failed",
        &[
            Write(0, 0, "AB"),
            Sync,
            Write(0, 1, "Z"),
            Miss,
            Write(1, 2, "z"),
            May("ABcd", "xy"),
            May("AZcd", "xyz"),
            May("A?cd", "xy?"),
            Never("abcd", "xy"),
            Never("AZ?d", "xy"),
            Never("AZcd", "x"),
            Never("AZcd", "xyzz"),
            Never("AZcd", "?y"),
        ],
    ),
];

// A small disk in memory, whose fourth changing call fails, and the sixth: a write past the end, and a sync.
const WALKED: &[Step] = &[
    May("abcd", "xy"),
    Never("abce", "xy"),
    Never("abc", "xy"),
    Never("abcde", "xy"),
    Never("abcd", "x"),
    // Two writes, and no sync yet.
    Write(0, 1, "XY"),
    May("abcd", "xy"),
    May("aXYd", "xy"),
    May("a??d", "xy"),
    Never("bXYd", "xy"),
    Never("aXYe", "xy"),
    Never("aXY", "xy"),
    Never("aXYd?", "xy"),
    Never("aXYd", "x?"),
    Write(1, 2, "z"),
    May("abcd", "xy"),
    May("a?Yd", "xyz"),
    May("aXYd", "xy?"),
    Never("aXYd", "xyz?"),
    Never("aXYd", "x?z"),
    Never("aXYd", "x"),
    Never("aXYd?", "xyz"),
    // A sync: nothing but what was written may be left.
    Sync,
    May("aXYd", "xyz"),
    Never("abcd", "xy"),
    Never("aXYd", "xy"),
    Never("abcd", "xyz"),
    Never("aXYd", "xy?"),
    // A failed write changes no octet that reads give, and may leave any within its range.
    Tear(0, 4, "ef"),
    Holds(0, "aXYd"),
    May("aXYd", "xyz"),
    May("aXYd?", "xyz"),
    May("aXYdef", "xyz"),
    Never("aXYdef?", "xyz"),
    Never("aXY?", "xyz"),
    Never("aXY", "xyz"),
    Never("aXYd", "xy"),
    // A failed sync settles nothing; the next one settles what reads give.
    Write(0, 0, "A"),
    Miss,
    May("aXYd", "xyz"),
    May("AXYd", "xyz"),
    May("?XYd?", "xyz"),
    May("AXYdef", "xyz"),
    Never("A?Yd", "xyz"),
    Never("AXY", "xyz"),
    Never("AXYdef?", "xyz"),
    Never("AXYd", "xyz?"),
    Sync,
    May("AXYd", "xyz"),
    Never("aXYd", "xyz"),
    Never("?XYd", "xyz"),
    Never("AXYd?", "xyz"),
    Time(7),
    Faults(2),
];

#[test]
fn what_a_crash_may_leave(rt: HostRuntime) -> Result<(), Fail> {
    for (name, steps) in IMAGES {
        walk(&rt, rt.alloc(), name, steps)?;
    }
    walk(
        &rt,
        rt.alloc(),
        "a disk in memory is walked through",
        &WALKED,
    )?;
    Ok(())
}

// A call, of which a write has these octets.
#[derive(Clone, Copy)]
enum Asked {
    Wrote(u8, u64, &'static str),
    // A failed write of so many octets.
    Tore(u8, u64, u64),
    Missed,
    Synced,
}

use Asked::{Missed, Synced, Tore, Wrote};

// Whether a disk with `abcd` in file 0 takes these calls.
const CALLS: &[(&[Asked], bool)] = &[
    // At the end of the file, and past it.
    (&[Tore(0, 4, 9)], true),
    (&[Tore(0, 5, 9)], false),
    // Behind a write that reached further, and behind one that failed to.
    (&[Wrote(0, 4, "EF"), Wrote(0, 6, "")], true),
    (&[Tore(0, 4, 2), Wrote(0, 6, "")], false),
    // Of the last file, and of none.
    (&[Wrote(15, 0, "z"), Missed, Synced], true),
    (&[Wrote(16, 0, "z")], false),
];

fn calls_of(alloc: Global, asked: &[Asked]) -> Result<Vec<Call>, AllocError> {
    let mut calls = Vec::new(alloc);
    for call in asked {
        calls.push(match *call {
            Wrote(file, at, piece) => Call::Wrote {
                file,
                at,
                piece: Octets::from_slice(alloc, piece.as_bytes())?,
            },
            Tore(file, at, n) => Call::Tore { file, at, n },
            Missed => Call::Missed,
            Synced => Call::Synced,
        })?;
    }
    Ok(calls)
}

#[test]
fn a_disk_takes_no_call_beyond_its_files(rt: HostRuntime) -> Result<(), Fail> {
    let first = files(rt.alloc(), "abcd", "xy")?;
    assert!(rt; first.len() == 16);
    for (i, (asked, want)) in CALLS.iter().enumerate() {
        let calls = calls_of(rt.alloc(), asked)?;
        assert!(rt; are_within(&first, &calls) == *want, "calls {i}");
    }
    Ok(())
}
