// What stood of keys.
ghost use Rattle.std.specs.Prelude.{◌≡◌, ◌≤◌, ℕ, List, length, take, IfOk};
ghost use Rattle.im_core.specs.Parts.{Answers, IsUp};
ghost use Rattle.im_digest.specs.Digests.{Hash};
ghost use Rattle.im_index.specs.Indexed.{IsSnapshotOf};
ghost use Rattle.im_machine.specs.Answers.{as_list, IsShown};
ghost use Rattle.im_machine.specs.Machines.{Machine};
ghost use Rattle.im_machine.specs.declared.events.Event.TheVariants as on;
ghost use Rattle.im_model.specs.declared.transactions.Transaction.{Transaction};
ghost use Rattle.im_versions.specs.Versions.{last_version, versions_of, IsScan};

use crate::store::OpenStore;
use im_index::snapshot::Snapshot;
use im_machine::outputs::Output;
use im_machine::questions::KeyQuestion;
use im_octet::octets::Octets;
use im_versions::errors::ViewError;
use im_versions::versions::{Version, Versions};
use im_versions::view::KvView;
use std::alloc::{AllocError, Global};

impl OpenStore {
    /// Tells what stood of keys behind the first `number` transactions, by a snapshot of the index.
    pub(crate) fn snap(
        &self,
        alloc: Global,
        number: u64,
        question: &KeyQuestion,
    ) -> Result<Output, AllocError>
        requires { (hash : Hash) × (m : Machine) × IsUp hash self.now m }
        ensures { (hash : Hash) (m : Machine) (session : ℕ) → IsUp hash self.now m
            → IfOk result (λ output. Answers hash m (on.Snap session number question.now) output self.now) }
    {
        let indexed = self.index.taken();
        if indexed < number {
            return Ok(Output::NotAllowed);
        }
        let snapshot = self.index.snapshot(alloc, number)?;
        let versions = shown_by(alloc, snapshot, number, question)?;
        Ok(Output::Versions { versions })
    }
}

// Want of memory is the only error of a view.
fn in_memory(_: ViewError) -> AllocError {
    AllocError
}

// What a snapshot of its own shows behind the first `number` transactions.
fn shown_by(
    alloc: Global,
    snapshot: Snapshot,
    number: u64,
    question: &KeyQuestion,
) -> Result<Versions, AllocError>
    requires { (history : List Transaction) × IsSnapshotOf snapshot history × (number ≤ length history) }
    ensures { (history : List Transaction) → IsSnapshotOf snapshot history → number ≤ length history
        → IfOk result (IsShown (take number history) question.now) }
{
    let answer = shown(alloc, &snapshot, number, question);
    drop(snapshot);
    answer
}

// What a snapshot shows behind the first `number` transactions.
fn shown(
    alloc: Global,
    snapshot: &Snapshot,
    number: u64,
    question: &KeyQuestion,
) -> Result<Versions, AllocError>
    requires { (history : List Transaction) × IsSnapshotOf snapshot.now history × (number ≤ length history) }
    ensures { (history : List Transaction) → IsSnapshotOf snapshot.now history → number ≤ length history
        → IfOk result (IsShown (take number history) question.now) }
{
    match question {
        KeyQuestion::Get { key } => last(alloc, snapshot, number, key),
        KeyQuestion::Scan { prefix } => live(alloc, snapshot, number, prefix),
        KeyQuestion::Versions { key } => all(alloc, snapshot, number, key),
    }
}

// The last version of a key: none or one.
fn last(
    alloc: Global,
    snapshot: &Snapshot,
    number: u64,
    key: &Octets,
) -> Result<Versions, AllocError>
    requires { (history : List Transaction) × IsSnapshotOf snapshot.now history × (number ≤ length history) }
    ensures { (history : List Transaction) → IsSnapshotOf snapshot.now history → number ≤ length history
        → IfOk result (λ versions. versions ≡ as_list (last_version (take number history) key.now)) }
{
    let key = key.as_slice();
    let version = snapshot.get(alloc, key, number).map_err(in_memory)?;
    none_or_one(alloc, version)
}

// The live keys that begin with a prefix.
fn live(
    alloc: Global,
    snapshot: &Snapshot,
    number: u64,
    prefix: &Octets,
) -> Result<Versions, AllocError>
    requires { (history : List Transaction) × IsSnapshotOf snapshot.now history × (number ≤ length history) }
    ensures { (history : List Transaction) → IsSnapshotOf snapshot.now history → number ≤ length history
        → IfOk result (IsScan (take number history) prefix.now) }
{
    let prefix = prefix.as_slice();
    let versions = snapshot.scan(alloc, prefix, number).map_err(in_memory)?;
    Ok(versions)
}

// All versions of a key.
fn all(
    alloc: Global,
    snapshot: &Snapshot,
    number: u64,
    key: &Octets,
) -> Result<Versions, AllocError>
    requires { (history : List Transaction) × IsSnapshotOf snapshot.now history × (number ≤ length history) }
    ensures { (history : List Transaction) → IsSnapshotOf snapshot.now history → number ≤ length history
        → IfOk result (λ versions. versions ≡ versions_of (take number history) key.now) }
{
    let key = key.as_slice();
    let versions = snapshot.versions(alloc, key, number).map_err(in_memory)?;
    Ok(versions)
}

// None or one, as a list.
fn none_or_one(alloc: Global, version: Option<Version>) -> Result<Versions, AllocError>
    ensures { IfOk result (λ versions. versions ≡ as_list version) }
{
    let mut versions = Vec::new(alloc);
    if let Some(version) = version {
        versions.push(version)?;
    }
    Ok(Versions::from_vec(versions))
}
