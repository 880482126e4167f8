//! Octets at their place in the files of a disk.

use im_alog::laying::{put, sync};
use im_alog::reading::{read_all, read_at};
use im_disk::calls::Call;
use im_disk::disk::DiskError;
use im_disk::memory::MemDisk;
use im_disk::no_disk::NoDisk;
use im_format::spans::Span;
use im_octet::octets::Octets;
use std::alloc::{AllocError, Global};
use std::test::Fail;

// A disk whose file 3 holds 10, 11, 12 and 13, and file 5 seven octets. Its second changing call fails.
fn disk(alloc: Global) -> Result<MemDisk, AllocError> {
    let files = vec![in alloc;
        Octets::new(alloc),
        Octets::new(alloc),
        Octets::new(alloc),
        Octets::from_slice(alloc, &[10, 11, 12, 13])?,
        Octets::new(alloc),
        Octets::from_slice(alloc, b"1234567")?,
    ]?;
    MemDisk::from_files(alloc, files, vec![in alloc; 2]?)
}

// What is read from a place on, at most so many octets.
const READ: &[(u64, usize, &[u8])] = &[
    (1, 2, &[11, 12]),
    (3, 5, &[13]),
    (4, 5, &[]),
    (u64::MAX, usize::MAX, &[]),
    (0, 0, &[]),
];

#[test]
fn a_file_is_read(rt: HostRuntime) -> Result<(), Fail> {
    let alloc = rt.alloc();
    let mut disk = disk(alloc)?;
    for (at, n, want) in READ {
        let octets = read_at(alloc, &mut disk, 3, *at, *n)?;
        assert!(rt; octets.as_slice() == *want, "{n} octets at {at}");
    }
    let all = read_all(alloc, &mut disk, 3)?;
    drop(disk);
    assert!(rt; all.as_slice() == [10, 11, 12, 13].as_slice());
    assert!(rt; read_all(alloc, &mut NoDisk, 15)?.is_empty());
    Ok(())
}

// The first span is put, the second isn't, and a sync comes behind both.
fn puts(alloc: Global, disk: &mut MemDisk) -> Result<bool, AllocError> {
    let span = Span {
        file: 5,
        at: 7,
        octets: Octets::from_slice(alloc, b"abc")?,
    };
    let fits = disk.file(5).len() == 7;
    Ok(
        fits && put(disk, &span) == Ok(())
            && disk.faults() == 0
            && put(disk, &span) == Err(DiskError::Failed)
            && disk.faults() == 1
            && sync(disk) == Ok(()),
    )
}

fn tells(calls: &[Call]) -> bool {
    calls.len() == 3
        && matches!(&calls[0], Call::Wrote { file: 5, at: 7, piece } if piece.as_slice() == b"abc".as_slice())
        && matches!(
            &calls[1],
            Call::Tore {
                file: 5,
                at: 7,
                n: 3
            }
        )
        && matches!(&calls[2], Call::Synced)
}

#[test]
fn a_span_is_put_at_its_place(rt: HostRuntime) -> Result<(), Fail> {
    let mut disk = disk(rt.alloc())?;
    assert!(rt; puts(rt.alloc(), &mut disk)?);
    assert!(rt; tells(disk.calls()));
    drop(disk);
    Ok(())
}
