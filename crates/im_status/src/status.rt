ghost use Rattle.std.specs.Prelude.{◌≡◌, ◌↔◌, ◌++◌, IfOk, IsTrue, OnOk};
ghost use Rattle.im_status.specs.Statuses.{behind_words, code_of, text_of, words_of};

use crate::damage::damage_text;
use im_format::damages::Damage;
use im_text::writing::push_number;
use std::alloc::{AllocError, Global};

/// How a run of the program ended. The program's exit status is the number at each.
#[derive(Clone, Copy, Debug, PartialEq, Eq)]
pub enum Status {
    /// 0: the input was read to its end, and all was done.
    Ok,
    /// 2: the words aren't a command line of the program.
    Usage,
    /// 3: the number, from 1, of the first line that isn't in the grammar. Nothing was run.
    Script { line: u64 },
    /// 4: the source failed.
    ReadFault,
    /// 5: the sink failed.
    WriteFault,
    /// 6: the disk failed. The lines before the first one without a reply were answered.
    DiskFault,
    /// 7: the disk's files don't hold what they should, first at this place. Nothing was run.
    Damaged(Damage),
    /// 8: the keeper failed.
    KeeperFault,
    /// 9: each line of the stream was told, and some failed a check, but none was forked.
    Refused,
    /// 10: a line was forked, and told with two unequal strings of one digest. The lines behind it weren't looked at.
    Forked,
    /// 11: memory ran out.
    Memory,
    /// 12: the source has more than 67,108,864 octets.
    Long,
    /// 13: the number, from 1, of the first kept line that fails a check or is forked. Nothing was written or kept.
    Kept { line: u64 },
    /// 14: the first transaction of what the disk holds after which the keys that begin with octet 00 aren't SQL's. Nothing was run.
    SqlKept { tx: u64 },
}

impl Status {
    /// The program's exit status.
    #[tactic(auto, unfolding(crate::specs::Statuses::code_of))]
    pub fn code(self) -> u8
        ensures { result ≡ code_of self }
    {
        match self {
            Status::Ok => 0,
            Status::Usage => 2,
            Status::Script { .. } => 3,
            Status::ReadFault => 4,
            Status::WriteFault => 5,
            Status::DiskFault => 6,
            Status::Damaged(_) => 7,
            Status::KeeperFault => 8,
            Status::Refused => 9,
            Status::Forked => 10,
            Status::Memory => 11,
            Status::Long => 12,
            Status::Kept { .. } => 13,
            Status::SqlKept { .. } => 14,
        }
    }

    /// The words that tell of it on standard error.
    #[tactic(auto, unfolding(crate::specs::Statuses::words_of))]
    pub fn words(self) -> &'static str
        ensures { result.now ≡ words_of self }
    {
        match self {
            Status::Ok => "",
            Status::Usage => "usage",
            Status::Script { .. } => "script",
            Status::ReadFault => "read fault",
            Status::WriteFault => "write fault",
            Status::DiskFault => "disk fault",
            Status::Damaged(_) => "damaged",
            Status::KeeperFault => "keeper fault",
            Status::Refused => "refused",
            Status::Forked => "forked",
            Status::Memory => "memory",
            Status::Long => "long",
            Status::Kept { .. } => "kept",
            Status::SqlKept { .. } => "sql",
        }
    }

    /// All that is said of it on standard error: nothing where all was done, and else one line.
    #[tactic(auto, unfolding(crate::specs::Statuses::text_of))]
    pub fn told(self, alloc: Global) -> Result<Vec<u8>, AllocError>
        ensures { IfOk result (λ text. text.items ≡ text_of self) }
    {
        let mut out = Vec::new(alloc);
        if let Status::Ok = self {
            return Ok(out);
        }
        out.extend_from_slice(b"im: ")?;
        out.extend_from_slice(self.words().as_bytes())?;
        push_behind(alloc, &mut out, self)?;
        out.extend_from_slice(b"\n")?;
        Ok(out)
    }

    /// Whether all was done.
    pub fn is_ok(self) -> bool
        ensures { IsTrue result ↔ (self ≡ Status.Ok) }
    {
        matches!(self, Status::Ok)
    }
}

// Adds the number of a line or of a transaction, or what is said of a damage.
#[tactic(auto, unfolding(crate::specs::Statuses::behind_words))]
fn push_behind(alloc: Global, out: &mut Vec<u8>, status: Status) -> Result<(), AllocError>
    ensures { OnOk result (out.new.items ≡ out.old.items ++ behind_words status) }
{
    match status {
        Status::Script { line } | Status::Kept { line } => push_number(alloc, out, b" ", line),
        Status::SqlKept { tx } => push_number(alloc, out, b" ", tx),
        Status::Damaged(damage) => {
            out.extend_from_slice(b" ")?;
            out.extend_from_slice(damage_text(alloc, &damage)?.as_slice())
        }
        _ => Ok(()),
    }
}

/// What the top call hands back.
#[derive(Drop)]
pub struct Done<D, C> {
    /// How the program ended.
    pub status: Status,
    /// The disk, as the run left it.
    pub disk: D,
    /// The clock, as the run left it.
    pub clock: C,
}
