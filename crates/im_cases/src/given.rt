//! What a run is given beside its standard input and the files of its disk.

use crate::doubles::Pace;
use crate::hashes::AskedHash;
use crate::lines::Run;
use crate::marks::{behind_fails, time};
use crate::octets::number;
use crate::wrong::Wrong;

/// The words of the command line: the program's name, and these.
pub fn words(run: Run) -> Result<Vec<String>, Wrong> {
    let mut words = Vec::new(run.alloc);
    words.push(String::from_str(run.alloc, "im")?)?;
    if let Some(line) = run.last("$") {
        for word in line.rest.split_whitespace() {
            words.push(String::from_str(run.alloc, word)?)?;
        }
    }
    Ok(words)
}

/// What computes digests: SHA-256 where it is asked for, and else the sum.
pub fn hash(run: Run) -> AskedHash {
    let is_sha = match run.last("hash") {
        Some(line) => line.rest.trim() == "sha256",
        None => false,
    };
    AskedHash { is_sha }
}

/// The clock.
pub fn clock(run: Run) -> Pace {
    let mut clock = Pace { next: 0, step: 0 };
    for line in run.lines {
        let step = match line.mark {
            "clock" => 0,
            "ticks" => 1,
            _ => continue,
        };
        let next = time(line.rest).unwrap_or(0);
        clock = Pace { next, step };
    }
    clock
}

/// How many calls the keeper serves.
pub fn served(run: Run) -> u64 {
    match run.last("keeper") {
        Some(line) => number(behind_fails(line.rest).unwrap_or("")).unwrap_or(u64::MAX),
        None => u64::MAX,
    }
}

/// The changing calls of the disk that fail, counted from 1.
pub fn failing(run: Run) -> Result<Vec<u64>, Wrong> {
    let mut failing = Vec::new(run.alloc);
    for line in run.lines {
        if line.mark == "disk" {
            push_numbers(&mut failing, behind_fails(line.rest)?)?;
        }
    }
    Ok(failing)
}

/// Adds the numbers that words say.
pub fn push_numbers(numbers: &mut Vec<u64>, text: &str) -> Result<(), Wrong> {
    for word in text.split_whitespace() {
        numbers.push(number(word)?)?;
    }
    Ok(())
}
