ghost use Rattle.std.specs.Prelude.{◌≡◌, ◌<◌, ◌+◌, ◌-◌, ◌↔◌, ◌++◌, ◌∷◌, [], IfOk, IfSome, OnOk, OnErr, IsTrue, Err};
ghost use Rattle.std.specs.Option.{option_map};
ghost use Rattle.im_edge.specs.Keepers.{KeepCause};

use crate::keeper::{Keeper, KeeperError, counted};
use im_octet::octets::Octets;
use std::alloc::Global;

/// A keeper that passes so many calls on to another one, and fails at each call behind them: what a test
/// makes of a keeper that breaks at a known call. A call that fails here doesn't reach the inner keeper.
#[derive(Drop)]
pub struct FusedKeeper<K> {
    /// The keeper that keeps the lines.
    pub inner: K,
    /// How many calls are still passed on.
    pub calls_left: u64,
    /// How often this keeper itself has failed, at most `u64::MAX`.
    pub failures: u64,
}

impl<K: Keeper> FusedKeeper<K> {
    /// A keeper that passes `calls` calls on to `inner`.
    pub fn new(inner: K, calls: u64) -> Self
        ensures inner { result.inner ≡ inner }
        ensures calls_left { result.calls_left ≡ calls }
        ensures failures { result.failures ≡ 0 }
    {
        FusedKeeper {
            inner,
            calls_left: calls,
            failures: 0,
        }
    }
}

impl<K: Keeper> Keeper for FusedKeeper<K> {
    ghost kept = { λ keeper. K.kept keeper.inner };

    ghost faults = { λ keeper. K.faults keeper.inner + keeper.failures };

    fn lines(&mut self, alloc: Global) -> Result<Vec<Octets>, KeeperError>
        ensures lines { IfOk result (λ lines. IfSome (K.kept self.old.inner) (λ xs. lines.items ≡ xs)) }
        ensures kept { K.kept self.new.inner ≡ K.kept self.old.inner }
        ensures cause { KeepCause (K.faults self.old.inner + self.old.failures) (K.faults self.new.inner + self.new.failures) result }
        ensures used { self.new.calls_left ≡ self.old.calls_left - 1 }
        ensures blown { self.old.calls_left ≡ 0 → (result ≡ Err KeeperError.Failed) × (self.new.inner ≡ self.old.inner) }
        ensures own { 0 < self.old.calls_left → self.new.failures ≡ self.old.failures }
    {
        if is_blown(&mut self.calls_left) {
            return counted(&mut self.failures, Err(KeeperError::Failed));
        }
        self.inner.lines(alloc)
    }

    fn append(&mut self, line: &[u8]) -> Result<(), KeeperError>
        ensures ok { OnOk result (K.kept self.new.inner ≡ option_map (λ xs. xs ++ line.now ∷ []) (K.kept self.old.inner)) }
        ensures err { OnErr result (K.kept self.new.inner ≡ K.kept self.old.inner) }
        ensures cause { KeepCause (K.faults self.old.inner + self.old.failures) (K.faults self.new.inner + self.new.failures) result }
        ensures used { self.new.calls_left ≡ self.old.calls_left - 1 }
        ensures blown { self.old.calls_left ≡ 0 → (result ≡ Err KeeperError.Failed) × (self.new.inner ≡ self.old.inner) }
        ensures own { 0 < self.old.calls_left → self.new.failures ≡ self.old.failures }
    {
        if is_blown(&mut self.calls_left) {
            return counted(&mut self.failures, Err(KeeperError::Failed));
        }
        self.inner.append(line)
    }
}

// Whether no call is left, and else uses one up.
fn is_blown(calls_left: &mut u64) -> bool
    ensures blown { IsTrue result ↔ (calls_left.old ≡ 0) }
    ensures used { calls_left.new ≡ calls_left.old - 1 }
{
    match calls_left.checked_sub(1) {
        Some(left) => {
            *calls_left = left;
            false
        }
        None => true,
    }
}
