//! The versions of one key in a sorted list: a block, since they stand beside each other, in the order of their numbers.

ghost use Rattle.std.specs.Prelude.{◌≡◌, ◌≤◌, ◌<◌, ℕ, List, true, false, All, IsTrue, filter, length, nat_le, slice_index_or};
ghost use Rattle.std.specs.List.{AllWithin};
ghost use Rattle.std.specs.List.Sorted.{IsSorted};
ghost use Rattle.im_versions.specs.Versions.{is_of};
ghost use Rattle.im_versions.specs.declared.versions.Version.{Version as TheVersion};
ghost use Rattle.im_index.specs.Marks.{numbered};

use crate::shared::Shared;

// Whether a version is one of this key.
fn has_key(shared: &Shared, key: &[u8]) -> bool
    ensures { result ≡ is_of key.now shared.now }
{
    shared.version().key.as_slice() == key
}

// Whether a version is one of the first `n` transactions.
pub(crate) fn is_within(shared: &Shared, n: u64) -> bool
    ensures { result ≡ nat_le shared.now.tx n }
{
    shared.version().tx <= n
}

// Whether the block in front, whose key is this one, has so many versions: where the last of them is of the key, and
// the one behind them isn't.
fn is_block(versions: &[Shared], key: &[u8], count: usize) -> bool
    requires sorted { IsSorted numbered versions.now }
    requires first { (d : TheVersion) → is_of key.now (slice_index_or versions.now 0 d) ≡ true }
    ensures some { IsTrue result → 0 < count }
    ensures within { IsTrue result → count ≤ length versions.now }
    ensures own { IsTrue result → AllWithin (λ v. is_of key.now v ≡ true) versions.now 0 count }
    ensures other { IsTrue result → (d : TheVersion) → count < length versions.now → is_of key.now (slice_index_or versions.now count d) ≡ false }
{
    if count == 0 || count > versions.len() {
        return false;
    }
    let last = count - 1;
    if !has_key(&versions[last], key) {
        return false;
    }
    if count == versions.len() {
        return true;
    }
    !has_key(&versions[count], key)
}

// Two places between which a block in front ends, found by doubling: all versions before the first one are of its key, and
// the version at the second one isn't, where there is one.
fn doubled(versions: &[Shared], key: &[u8]) -> (usize, usize)
    requires sorted { IsSorted numbered versions.now }
    requires some { 0 < length versions.now }
    requires first { (d : TheVersion) → is_of key.now (slice_index_or versions.now 0 d) ≡ true }
    ensures some { 0 < result.0 }
    ensures order { result.0 ≤ result.1 }
    ensures within { result.1 ≤ length versions.now }
    ensures own { AllWithin (λ v. is_of key.now v ≡ true) versions.now 0 result.0 }
    ensures other { (d : TheVersion) → result.1 < length versions.now → is_of key.now (slice_index_or versions.now result.1 d) ≡ false }
{
    let mut count = 1;
    'doubling: while count <= versions.len() / 2 {
        let last = 2 * count - 1;
        if !has_key(&versions[last], key) {
            return (count, last);
        }
        count *= 2;
    }
    (count, versions.len())
}

// How long the block in front is, whose key is this one, where no hint says it. It doubles, and halves what lies between the
// two places then, so that it compares about twice as many versions as the block's length has binary digits.
fn sought_len(versions: &[Shared], key: &[u8]) -> usize
    requires sorted { IsSorted numbered versions.now }
    requires some { 0 < length versions.now }
    requires first { (d : TheVersion) → is_of key.now (slice_index_or versions.now 0 d) ≡ true }
    ensures some { 0 < result }
    ensures within { result ≤ length versions.now }
    ensures own { AllWithin (λ v. is_of key.now v ≡ true) versions.now 0 result }
    ensures other { (d : TheVersion) → result < length versions.now → is_of key.now (slice_index_or versions.now result d) ≡ false }
{
    let (from, to) = doubled(versions, key);
    let further = versions[from..to].partition_point(|shared| has_key(shared, key));
    from + further
}

// How long the block in front is, whose key is this one: as long as its first version says, where two comparisons show it.
pub(crate) fn block_len(versions: &[Shared], key: &[u8]) -> usize
    requires sorted { IsSorted numbered versions.now }
    requires some { 0 < length versions.now }
    requires first { (d : TheVersion) → is_of key.now (slice_index_or versions.now 0 d) ≡ true }
    ensures some { 0 < result }
    ensures within { result ≤ length versions.now }
    ensures own { AllWithin (λ v. is_of key.now v ≡ true) versions.now 0 result }
    ensures other { (d : TheVersion) → result < length versions.now → is_of key.now (slice_index_or versions.now result d) ≡ false }
{
    let hinted = versions[0].hinted();
    if is_block(versions, key, hinted) {
        return hinted;
    }
    sought_len(versions, key)
}

// The versions of a block that are of the first `n` transactions. It looks at the last one first, and halves the block where
// that one isn't.
pub(crate) fn block_upto(block: &[Shared], n: u64) -> &[Shared]
    requires sorted { IsSorted numbered block.now }
    requires some { 0 < length block.now }
    requires own { (key : List ℕ) × All (λ v. is_of key v ≡ true) block.now }
    ensures { result.now ≡ filter (λ v. nat_le v.tx n) block.now }
{
    let last = block.len() - 1;
    if is_within(&block[last], n) {
        return block;
    }
    let end = block.partition_point(|shared| is_within(shared, n));
    &block[..end]
}

// Where the versions end that have the key of the one at this place, and stand behind it without a gap.
fn end_of(versions: &[Shared], from: usize) -> usize
    requires { from < length versions.now }
    ensures some { from < result }
    ensures within { result ≤ length versions.now }
{
    let key = versions[from].version().key.as_slice();
    let mut end = from + 1;
    'passing: while end < versions.len() && has_key(&versions[end], key) {
        end += 1;
    }
    end
}

// Has the first version of each block say how long the block is. It compares each version once.
pub(crate) fn hint_all(versions: &mut Vec<Shared>)
    ensures { versions.new.items ≡ versions.old.items }
{
    let mut from = 0;
    'hinting: while from < versions.len() {
        let end = end_of(versions.as_slice(), from);
        versions[from].hint(end - from);
        from = end;
    }
}
