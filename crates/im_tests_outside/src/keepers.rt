use crate::watched::{Asked, WatchedFiles};
use im_edge::file_keeper::FileKeeper;
use im_edge::fused_keeper::FusedKeeper;
use im_edge::keeper::{Keeper, KeeperError, MemKeeper};
use std::alloc::Global;
use std::fs::Files;
use std::test::Fail;
use std::{fs, io};

// Whether a keeper has these lines, and no others.
fn has<K: Keeper>(alloc: Global, keeper: &mut K, want: &[&[u8]]) -> bool {
    let Ok(lines) = keeper.lines(alloc) else {
        return false;
    };
    let mut same = lines.len() == want.len();
    for (line, text) in lines.iter().zip(want) {
        same &= line.as_slice() == *text;
    }
    same
}

fn keeps_in_memory(alloc: Global) -> bool {
    let mut keeper = MemKeeper::new(alloc);
    keeper.append(b"one") == Ok(())
        && keeper.append(b"two") == Ok(())
        && has(alloc, &mut keeper, &[b"one", b"two"])
}

fn fails_at_the_third_call(alloc: Global) -> bool {
    let mut keeper = FusedKeeper::new(MemKeeper::new(alloc), 2);
    keeper.append(b"one") == Ok(())
        && has(alloc, &mut keeper, &[b"one"])
        && keeper.append(b"two") == Err(KeeperError::Failed)
        && matches!(keeper.lines(alloc), Err(KeeperError::Failed))
        && keeper.failures == 2
        && has(alloc, &mut keeper.inner, &[b"one"])
}

#[test]
fn keepers_in_memory(rt: HostRuntime) {
    assert!(rt; keeps_in_memory(rt.alloc()));
    assert!(rt; fails_at_the_third_call(rt.alloc()));
}

const FOLDER: &str = "im_kept";

const KEPT: &str = "im_kept/kept.txt";

const SYNCED: &str = "im_kept_synced";

const SYNCED_KEPT: &str = "im_kept_synced/kept.txt";

// Makes a folder anew, with nothing in it.
fn make_folder(rt: &(impl Files + Alloc), folder: &str) -> io::Result<()> {
    let _ = fs::remove_dir_all(rt, folder);
    fs::create_dir(rt, folder)
}

fn is_missing<R: Files>(files: &R, path: &str) -> bool {
    matches!(fs::exists(files, path), Ok(false))
}

// A file that isn't there has no line, and isn't made by looking.
fn is_made_to_append<R: Files>(files: &R, alloc: Global) -> bool {
    let mut keeper = FileKeeper::new(files, alloc, KEPT);
    has(alloc, &mut keeper, &[])
        && is_missing(files, KEPT)
        && keeper.append(b"one") == Ok(())
        && keeper.append(b"two") == Ok(())
        && has(alloc, &mut keeper, &[b"one", b"two"])
        && keeper.failures == 0
}

// The lines of a file that another program wrote: an empty one, and one that isn't ended.
fn is_read_anew<R: Files>(files: &R, alloc: Global) -> bool {
    let mut keeper = FileKeeper::new(files, alloc, KEPT);
    has(alloc, &mut keeper, &[b"", b"three"]) && keeper.failures == 0
}

fn folder_is_no_file<R: Files>(files: &R, alloc: Global) -> bool {
    let mut keeper = FileKeeper::new(files, alloc, FOLDER);
    matches!(keeper.lines(alloc), Err(KeeperError::Failed))
        && keeper.append(b"one") == Err(KeeperError::Failed)
        && keeper.failures == 2
}

#[test]
fn lines_in_a_file(rt: HostRuntime) -> Result<(), Fail> {
    let alloc = rt.alloc();
    make_folder(&rt, FOLDER)?;
    assert!(rt; is_made_to_append(&rt, alloc));
    assert!(rt; fs::read(&rt, KEPT)?.as_slice() == b"one\ntwo\n".as_slice());
    fs::write(&rt, KEPT, b"\nthree".as_slice())?;
    assert!(rt; is_read_anew(&rt, alloc));
    assert!(rt; folder_is_no_file(&rt, alloc));
    fs::remove_dir_all(&rt, FOLDER)?;
    Ok(())
}

// The folder's names are synced before the first line, and each line; one that can't be written, or can't be synced, is a
// failure, and the file is cut back.
fn is_synced<R: Files>(rt: &R, alloc: Global) -> bool {
    let asked = Asked::new();
    let files = WatchedFiles {
        inner: rt,
        asked: &asked,
    };
    let mut keeper = FileKeeper::new(&files, alloc, SYNCED_KEPT);
    let kept = keeper.append(b"one") == Ok(())
        && asked.synced("d+t-")
        && keeper.append(b"two") == Ok(())
        && asked.synced("t-");
    asked.fail(true);
    let unwritten = keeper.append(b"three") == Err(KeeperError::Failed);
    asked.fail_behind(1);
    let unsynced = keeper.append(b"four") == Err(KeeperError::Failed);
    kept && unwritten
        && unsynced
        && keeper.failures == 2
        && has(alloc, &mut keeper, &[b"one", b"two"])
}

#[test]
fn each_line_is_synced(rt: HostRuntime) -> Result<(), Fail> {
    make_folder(&rt, SYNCED)?;
    assert!(rt; is_synced(&rt, rt.alloc()));
    assert!(rt; fs::read(&rt, SYNCED_KEPT)?.as_slice() == b"one\ntwo\n".as_slice());
    fs::remove_dir_all(&rt, SYNCED)?;
    Ok(())
}

const ENDED: &str = "im_kept_ended";

const ENDED_KEPT: &str = "im_kept_ended/kept.txt";

// What a file holds, and what it holds once `one` was appended.
const ENDS: [(&str, &str); 4] = [
    ("", "one\n"),
    ("zero\n", "zero\none\n"),
    ("zero", "zero\none\n"),
    ("\nzero", "\nzero\none\n"),
];

#[test]
fn a_last_line_gets_the_end_that_it_lacks(rt: HostRuntime) -> Result<(), Fail> {
    make_folder(&rt, ENDED)?;
    for (before, after) in ENDS {
        fs::write(&rt, ENDED_KEPT, before)?;
        let added = FileKeeper::new(&rt, rt.alloc(), ENDED_KEPT).append(b"one");
        let read = fs::read(&rt, ENDED_KEPT)?;
        assert!(rt;
            added == Ok(()) && read.as_slice() == after.as_bytes(),
            "{before}"
        );
    }
    fs::remove_dir_all(&rt, ENDED)?;
    Ok(())
}
