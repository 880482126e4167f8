ghost use Rattle.std.specs.Prelude.{◌≡◌, ◌⊎◌, ℕ, ◌+◌, ◌≤◌, List, IfSome, Option};
ghost use Rattle.im_counts.specs.Counts.{Rose};
ghost use Rattle.im_verify.specs.Judged.{StopsHeld};
ghost use Rattle.im_verify.specs.Shows.{HasShowFate, Shows, ShowsPart};

use crate::kept::{KeptError, take_kept};
use crate::show_text::known_text;
use im_digest::Hash32;
use im_edge::keeper::{Keeper, KeeperError};
use im_edge::sink::{Sink, write_all};
use im_octet::octets::Octets;
use std::alloc::Global;

/// How `show` ended.
#[derive(Clone, Copy, Debug, PartialEq, Eq)]
pub enum ShowEnd {
    /// All that the kept lines lead to was written.
    Ok,
    /// The sink failed. A front part was written.
    WriteFault,
    /// The keeper failed. Nothing was written.
    KeeperFault,
    /// Memory ran out. Nothing was written.
    Memory,
    /// The number, from 1, of the first kept line that is refused or forked. Nothing was written.
    Kept { line: u64 },
}

// Takes lines that a keeper held, which are these where it tells them, and writes the state and the facts behind them.
fn show_lines<H: Hash32, K: Sink>(
    alloc: Global,
    hash: &H,
    sink: &mut K,
    lines: &[Octets],
) -> ShowEnd
    ensures ok { (held : Option (List (List ℕ))) → IfSome held (λ xs. lines.now ≡ xs) → result ≡ ShowEnd.Ok → Shows (H.digest hash.now) held (K.written sink.old) (K.written sink.new) }
    ensures part { (held : Option (List (List ℕ))) → IfSome held (λ xs. lines.now ≡ xs) → result ≡ ShowEnd.WriteFault → ShowsPart (H.digest hash.now) held (K.written sink.old) (K.written sink.new) }
    ensures nothing { (result ≡ ShowEnd.Memory) ⊎ ((k : ℕ) × (result ≡ ShowEnd.Kept k)) → sink.new ≡ sink.old }
    ensures stops { (held : Option (List (List ℕ))) → IfSome held (λ xs. lines.now ≡ xs) → (k : ℕ) → result ≡ ShowEnd.Kept k → StopsHeld (H.digest hash.now) held k }
    ensures never { result ≡ ShowEnd.KeeperFault → ⊥ }
    ensures write { result ≡ ShowEnd.WriteFault → Rose (K.faults sink.old) (K.faults sink.new) }
    ensures sink_count { (result ≡ ShowEnd.WriteFault → ⊥) → K.faults sink.new ≡ K.faults sink.old }
    ensures sink_once { K.faults sink.new ≤ K.faults sink.old + 1 }
{
    let client = match take_kept(alloc, hash, lines) {
        Ok(client) => client,
        Err(KeptError::Memory) => return ShowEnd::Memory,
        Err(KeptError::Line(line)) => return ShowEnd::Kept { line },
    };
    let Ok(text) = known_text(alloc, hash, &client) else {
        drop(client);
        return ShowEnd::Memory;
    };
    drop(client);
    match write_all(sink, text.as_slice()) {
        Ok(()) => ShowEnd::Ok,
        Err(_) => ShowEnd::WriteFault,
    }
}

// Takes the lines that the keeper holds, and writes the state and the facts behind them.
fn show_kept<H: Hash32, K: Sink, P: Keeper>(
    alloc: Global,
    hash: &H,
    sink: &mut K,
    keeper: &mut P,
) -> ShowEnd
    ensures ok { result ≡ ShowEnd.Ok → Shows (H.digest hash.now) (P.kept keeper.old) (K.written sink.old) (K.written sink.new) }
    ensures part { result ≡ ShowEnd.WriteFault → ShowsPart (H.digest hash.now) (P.kept keeper.old) (K.written sink.old) (K.written sink.new) }
    ensures nothing { (result ≡ ShowEnd.KeeperFault) ⊎ (result ≡ ShowEnd.Memory) ⊎ ((k : ℕ) × (result ≡ ShowEnd.Kept k)) → sink.new ≡ sink.old }
    ensures stops { (k : ℕ) → result ≡ ShowEnd.Kept k → StopsHeld (H.digest hash.now) (P.kept keeper.old) k }
    ensures kept { P.kept keeper.new ≡ P.kept keeper.old }
    ensures write { result ≡ ShowEnd.WriteFault → Rose (K.faults sink.old) (K.faults sink.new) }
    ensures keep { result ≡ ShowEnd.KeeperFault → Rose (P.faults keeper.old) (P.faults keeper.new) }
    ensures sink_count { (result ≡ ShowEnd.WriteFault → ⊥) → K.faults sink.new ≡ K.faults sink.old }
    ensures keeper_count { (result ≡ ShowEnd.KeeperFault → ⊥) → P.faults keeper.new ≡ P.faults keeper.old }
    ensures sink_once { K.faults sink.new ≤ K.faults sink.old + 1 }
    ensures keeper_once { P.faults keeper.new ≤ P.faults keeper.old + 1 }
{
    match keeper.lines(alloc) {
        Ok(lines) => show_lines(alloc, hash, sink, lines.as_slice()),
        Err(KeeperError::Failed) => ShowEnd::KeeperFault,
        Err(KeeperError::Memory) => ShowEnd::Memory,
    }
}

/// Takes the lines that the keeper holds, and writes the state and the facts behind them. The keeper's lines stay. Each line is
/// read and checked once, and the whole text is made before any of it is written.
pub fn show<H: Hash32, K: Sink, P: Keeper>(
    alloc: Global,
    hash: &H,
    sink: &mut K,
    keeper: &mut P,
) -> ShowEnd
    // The kept lines are those that the keeper held, where it tells them, and else some.
    ensures ok { result ≡ ShowEnd.Ok → Shows (H.digest hash.now) (P.kept keeper.old) (K.written sink.old) (K.written sink.new) }
    ensures part { result ≡ ShowEnd.WriteFault → ShowsPart (H.digest hash.now) (P.kept keeper.old) (K.written sink.old) (K.written sink.new) }
    ensures nothing { (result ≡ ShowEnd.KeeperFault) ⊎ (result ≡ ShowEnd.Memory) ⊎ ((k : ℕ) × (result ≡ ShowEnd.Kept k)) → sink.new ≡ sink.old }

    // The first kept line that is refused or forked.
    ensures stops { (k : ℕ) → result ≡ ShowEnd.Kept k → StopsHeld (H.digest hash.now) (P.kept keeper.old) k }

    // At every end the keeper holds what it held.
    ensures kept { P.kept keeper.new ≡ P.kept keeper.old }

    // A fault comes only where its count rose, and no count rises otherwise, and by one at most.
    ensures write { result ≡ ShowEnd.WriteFault → Rose (K.faults sink.old) (K.faults sink.new) }
    ensures keep { result ≡ ShowEnd.KeeperFault → Rose (P.faults keeper.old) (P.faults keeper.new) }
    ensures sink_count { (result ≡ ShowEnd.WriteFault → ⊥) → K.faults sink.new ≡ K.faults sink.old }
    ensures keeper_count { (result ≡ ShowEnd.KeeperFault → ⊥) → P.faults keeper.new ≡ P.faults keeper.old }
    ensures sink_once { K.faults sink.new ≤ K.faults sink.old + 1 }
    ensures keeper_once { P.faults keeper.new ≤ P.faults keeper.old + 1 }

    // No fault: what the keeper holds decides, or memory is wanted.
    ensures complete { (Rose (K.faults sink.old) (K.faults sink.new) → ⊥) → (Rose (P.faults keeper.old) (P.faults keeper.new) → ⊥)
        → IfSome (P.kept keeper.old) (HasShowFate (H.digest hash.now) result) }
{
    show_kept(alloc, hash, sink, keeper)
}
