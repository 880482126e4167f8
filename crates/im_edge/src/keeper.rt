ghost use Rattle.std.specs.Prelude.{◌≡◌, ℕ, List, [], ◌∷◌, ◌++◌, Option, IfOk, OnOk, OnErr, IfSome};
ghost use Rattle.std.specs.Option.{option_map};
ghost use Rattle.im_edge.specs.Keepers.{KeepCause};

use im_octet::octets::Octets;
use std::alloc::{AllocError, Global};
use std::marker::Model;

/// Why a keeper didn't do what it was asked.
#[derive(Clone, Copy, Debug, PartialEq, Eq)]
pub enum KeeperError {
    /// The keeper failed, and was counted.
    Failed,
    /// Memory ran out.
    Memory,
}

impl From<AllocError> for KeeperError {
    ghost use Rattle.im_edge.specs.declared.keeper.KeeperError.TheVariants.{Memory};

    ghost from_gives = { λ _ error. error ≡ Memory };

    fn from(_: AllocError) -> Self {
        KeeperError::Memory
    }
}

/// Keeps lines, in the order in which they came. An error leaves them as they were, where the keeper tells
/// them.
///
/// # Thread safety
///
/// None is claimed. Each call takes the keeper by `&mut`, so one caller at a time holds it.
///
/// # Invariants
///
/// Where the lines are told (`kept`), no call changes or drops one, and a new one stands behind the others.
/// The count of failures (`faults`) never falls.
pub trait Keeper {
    /// The lines that are kept, where the keeper tells them.
    ghost kept: { Self → Option (List (List ℕ)) };

    /// How often it has failed.
    ghost faults: { Self → ℕ };

    /// A copy of each line, the first one first.
    fn lines(&mut self, alloc: Global) -> Result<Vec<Octets>, KeeperError>
        ensures lines { IfOk result (λ lines. IfSome (kept self.old) (λ xs. lines.items ≡ xs)) }
        ensures kept { kept self.new ≡ kept self.old }
        ensures cause { KeepCause (faults self.old) (faults self.new) result };

    /// Keeps a line more, behind the others.
    fn append(&mut self, line: &[u8]) -> Result<(), KeeperError>
        ensures ok { OnOk result
            (kept self.new ≡ option_map (λ xs. xs ++ line.now ∷ []) (kept self.old)) }
        ensures err { OnErr result (kept self.new ≡ kept self.old) }
        ensures cause { KeepCause (faults self.old) (faults self.new) result };
}

/// A keeper in memory, which never fails. A clause sees the list of its lines.
#[derive(Drop)]
pub struct MemKeeper {
    alloc: Global,
    lines: Vec<Octets>,
}

impl Model for MemKeeper {
    ghost use Rattle.std.specs.Prelude.{ℕ, List};

    ghost Value = { List (List ℕ) };

    ghost view = { λ keeper. keeper.lines.items };
}

impl MemKeeper {
    ghost use Rattle.std.specs.Prelude.{◌≡◌, []};

    /// A keeper of no line yet. It takes no memory.
    pub fn new(alloc: Global) -> Self
        ensures { result ≡ [] }
    {
        MemKeeper {
            alloc,
            lines: Vec::new(alloc),
        }
    }
}

impl Keeper for MemKeeper {
    ghost use Rattle.std.specs.Prelude.{Some};

    ghost kept = { λ keeper. Some keeper };

    ghost faults = { λ _. 0 };

    fn lines(&mut self, alloc: Global) -> Result<Vec<Octets>, KeeperError> {
        Ok(copy_of(alloc, &self.lines)?)
    }

    fn append(&mut self, line: &[u8]) -> Result<(), KeeperError> {
        let copy = Octets::from_slice(self.alloc, line)?;
        self.lines.push(copy).map_err(AllocError::from)?;
        Ok(())
    }
}

// A copy of each line.
fn copy_of(alloc: Global, lines: &[Octets]) -> Result<Vec<Octets>, AllocError>
    ensures { IfOk result (λ copies. copies.items ≡ lines.now) }
{
    let mut copies = Vec::with_capacity(alloc, lines.len())?;
    for line in lines {
        copies.push(Octets::from_slice(alloc, line.as_slice())?)?;
    }
    Ok(copies)
}

// The answer of a call, where a failure is counted.
pub(crate) fn counted<T>(
    failures: &mut u64,
    answer: Result<T, KeeperError>,
) -> Result<T, KeeperError>
    ensures same { result ≡ answer }
    ensures cause { KeepCause failures.old failures.new result }
{
    if matches!(answer, Err(KeeperError::Failed)) {
        *failures = failures.saturating_add(1);
    }
    answer
}
