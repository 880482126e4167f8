//! How a run ended, and what the words of the command line ask for.

use im_format::damages::{Damage, Difference};
use im_status::status::Status;
use im_words::{Link, Request, WordsError, read_words};
use std::alloc::{AllocError, Global};
use std::test::Fail;

// A fork, want of memory, two digests where the third file begins, a line of the greatest number, and a transaction.
const ENDS: [(Status, u8, &str, &[u8]); 5] = [
    (Status::Forked, 10, "forked", b"im: forked\n"),
    (Status::Memory, 11, "memory", b"im: memory\n"),
    (
        Status::Damaged(Damage {
            file: 2,
            at: 0,
            found: Difference::Digests {
                want: [0x0a; 32],
                got: [0xf1; 32],
            },
        }),
        7,
        "damaged",
        b"im: damaged 2 0 0a0a0a0a0a0a0a0a0a0a0a0a0a0a0a0a0a0a0a0a0a0a0a0a0a0a0a0a0a0a0a0a f1f1f1f1f1f1f1f1f1f1f1f1f1f1f1f1f1f1f1f1f1f1f1f1f1f1f1f1f1f1f1f1\n",
    ),
    (
        Status::Kept { line: u64::MAX },
        13,
        "kept",
        b"im: kept 18446744073709551615\n",
    ),
    (Status::SqlKept { tx: 1 }, 14, "sql", b"im: sql 1\n"),
];

#[test]
fn each_end_has_its_status_its_words_and_its_text(rt: HostRuntime) -> Result<(), Fail> {
    for (status, code, words, text) in ENDS {
        let told = status.told(rt.alloc())?;
        assert!(rt;
            status.code() == code && status.words() == words && told.as_slice() == text,
            "{words}"
        );
    }
    Ok(())
}

// What a command line asks for whose words are parted by spaces.
fn answer(alloc: Global, line: &str) -> Result<Result<Request, WordsError>, AllocError> {
    let mut words = Vec::new(alloc);
    for word in line.split(' ') {
        let word = String::from_str(alloc, word)?;
        words.push(word)?;
    }
    Ok(read_words(alloc, words.as_slice()))
}

#[test]
fn a_run_links_by_itself_unless_the_words_say_otherwise(rt: HostRuntime) -> Result<(), Fail> {
    for (line, logs, link) in [
        ("im run", 1, Link::Auto),
        ("im run --logs 3 --link manual", 3, Link::Manual),
        ("im run --link manual --logs 3", 3, Link::Manual),
    ] {
        assert!(rt;
            answer(rt.alloc(), line)? == Ok(Request::Run { logs, link }),
            "{line}"
        );
    }
    Ok(())
}
