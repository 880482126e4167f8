// A call of the disk that was foretold to fail or not.
ghost use Rattle.std.specs.Prelude.{true, false, IfOk};
ghost use Rattle.im_core.specs.Foretold.{IsForetold, IsTheSame};

use im_disk::memory::MemDisk;
use im_journal::errors::JournalError;
use im_journal::journal::Journal;
use im_machine::outputs::Output;
use std::alloc::AllocError;

/// Where the next call of the journal's disk is to fail, has it fail.
pub(crate) fn foretell(journal: &mut Journal<MemDisk>, fails: bool) -> Result<(), AllocError>
    ensures { IsTheSame journal.old journal.new }
{
    if fails {
        return journal.fail_next();
    }
    Ok(())
}

/// What a call of the disk is answered, as it was foretold. A disk in memory fails just where it is told to. What is known of a
/// journal's call is what is known over any disk, and doesn't say so: another answer ends the run as want of memory does.
pub(crate) fn foretold(fails: bool, answer: Result<(), JournalError>) -> Result<Output, AllocError>
    ensures { IfOk result (IsForetold fails answer) }
{
    if fails { failed(answer) } else { done(answer) }
}

// What is answered where the disk was to fail.
fn failed(answer: Result<(), JournalError>) -> Result<Output, AllocError>
    ensures { IfOk result (IsForetold true answer) }
{
    match answer {
        Err(JournalError::DiskFault) => Ok(Output::Failed),
        _ => Err(AllocError),
    }
}

// What is answered where it wasn't.
fn done(answer: Result<(), JournalError>) -> Result<Output, AllocError>
    ensures { IfOk result (IsForetold false answer) }
{
    match answer {
        Ok(()) => Ok(Output::Done),
        Err(_) => Err(AllocError),
    }
}
