ghost use Rattle.std.specs.Prelude.{◌≡◌, ℕ, ◌<◌, ◌≤◌, ◌+◌, true, false, [], ◌∷◌, ◌++◌, length, IfOk};
ghost use Rattle.std.specs.List.{All};
ghost use mathlib.Core.List.{IsPrefix};
ghost use Rattle.im_format.specs.Places.{AreAppended};
ghost use Rattle.im_table.specs.References.{references_of, HaveLengths, IsLawful};
ghost use Rattle.im_table.specs.Views.{placed_by, looked_durable, looked_linked, looked_indexed, looked_failed, added, view_settled, linked_to, indexed_to, failed_once, AreHeld, left_of, right_of, no_roles, view_joined, opener};
ghost use Rattle.im_model.specs.Counts.{times};
ghost use Rattle.im_table.specs.Rules.{SeesPlaced, Loads};

use crate::items::{LogItem, Opening};
use crate::law::Law;
use crate::pass::Pass;
use crate::plays::{
    Added, Adding, Closing, Comparing, Cut, Cutting, Failing, Indexing, Joining, Linking, Origin,
    Ruled, SeeDurable, SeeFailed, SeeIndexed, SeeLinked, SeePlaced, Settling,
};
use crate::roles::{Roles, no_roles};
use crate::view::View;
use atomic_table::Table;
use std::alloc::{AllocError, Global};
use std::marker::{Brand, Model};
use std::mem;

/// The five words that say how far one history has come: placed, durable, linked, indexed and failed. A clause sees
/// which tip it is, what was found when it was opened, and the number of value logs.
///
/// Each call is one atomic step on one word (a join is two, and a split and a close are a load), returns without
/// waiting for another thread, and takes no memory but for `open`. Each asks that the pass is one of this tip.
///
/// # Thread safety
///
/// Threads share it by `&`, and each steps with a pass of its own.
///
/// # Invariants
///
/// The rule (`HoldsRule`) holds between any two steps. There is one list, as long as the word placed. It begins with what
/// was found, and with the list of each pass, and the law holds of the list of each pass. A number that a pass knows is
/// at most its word, and the holder of a role knows the role's words exactly, or has seen the whole list. Weights,
/// leaves and own numbers are counted over all passes.
#[derive(Drop)]
pub struct Tip<L: Law> {
    table: Table<(), View, Opening, Ruled<L>, Global>,
}

impl<L: Law> Model for Tip<L> {
    ghost use Rattle.std.specs.Prelude.{◌≡◌, ◌≤◌};
    ghost use Rattle.im_table.specs.Known.{Place};

    ghost Value = { Place };

    ghost view = { λ t. record { table = t.table.shared.table_id; found = t.table.shared.key.found.items; logs = t.table.shared.key.logs } };

    ghost invariant = { λ t. (t.table.shared.table_id.words ≡ 5) × (1 ≤ t.table.shared.key.logs) × (t.table.shared.key.logs ≤ 4) };
}

impl<L: Law> Tip<L> {
    /// A tip whose list is what was found, all of it durable, linked and indexed, with the pass that has each role and
    /// the whole weight. Its only error is want of memory.
    pub fn open(alloc: Global, opening: &Opening) -> Result<(Tip<L>, Pass), AllocError>
        requires found { All (λ x. x.found ≡ true) opening.now.found.items }
        requires logs { (1 ≤ opening.now.logs) × (opening.now.logs ≤ 4) }
        ensures { IfOk result (λ r. (r.0.found ≡ opening.now.found.items) × (r.0.logs ≡ opening.now.logs) × (r.1.table ≡ r.0.table) × (r.1.view ≡ opener opening.now.found.items)) }
    {
        let placed = opening.found.len() as u64;
        let (table, seat) = Table::of_words(alloc, &[placed, placed, placed, placed, 0], opening)?;
        Ok((Tip { table }, Pass { seat }))
    }

    fn load_placed_as<O: Origin>(&self, pass: &mut Pass) -> u64
        requires picked { O.logs ≡ self.now.logs }
        requires table { pass.old.table ≡ self.now.table }
        ensures table { pass.new.table ≡ pass.old.table }
        ensures sees { SeesPlaced (IsLawful L.allows O.logs) pass.old.view result pass.new.view }
        ensures logs { (1 ≤ self.now.logs) × (self.now.logs ≤ 4) }
    {
        self.table.shared.load::<SeePlaced<L, O>>(&mut pass.seat, 0)
    }

    /// How many transactions are placed: no fewer than the pass has seen or knows of, and just those that it has seen
    /// where it has the role of the book. The law holds of what it has seen, whose references lie by the rule of the
    /// value logs, 1 to 4 of them.
    pub fn load_placed(&self, pass: &mut Pass) -> u64
        requires table { pass.old.table ≡ self.now.table }
        ensures table { pass.new.table ≡ pass.old.table }
        ensures sees { SeesPlaced (IsLawful L.allows self.now.logs) pass.old.view result pass.new.view }
        ensures logs { (1 ≤ self.now.logs) × (self.now.logs ≤ 4) }
    {
        self.load_placed_as::<Brand>(pass)
    }

    /// How many transactions are durable, which the pass then knows.
    pub fn load_durable(&self, pass: &mut Pass) -> u64
        requires { pass.old.table ≡ self.now.table }
        ensures table { pass.new.table ≡ pass.old.table }
        ensures view { pass.new.view ≡ looked_durable pass.old.view result }
        ensures finds { Loads pass.old.view.roles.journal pass.old.view.least.durable result }
    {
        self.table.shared.load::<SeeDurable>(&mut pass.seat, 1)
    }

    /// How many transactions are linked, which the pass then knows.
    pub fn load_linked(&self, pass: &mut Pass) -> u64
        requires { pass.old.table ≡ self.now.table }
        ensures table { pass.new.table ≡ pass.old.table }
        ensures view { pass.new.view ≡ looked_linked pass.old.view result }
        ensures finds { Loads pass.old.view.roles.tree pass.old.view.least.linked result }
    {
        self.table.shared.load::<SeeLinked>(&mut pass.seat, 2)
    }

    /// How many transactions are indexed, which the pass then knows.
    pub fn load_indexed(&self, pass: &mut Pass) -> u64
        requires { pass.old.table ≡ self.now.table }
        ensures table { pass.new.table ≡ pass.old.table }
        ensures view { pass.new.view ≡ looked_indexed pass.old.view result }
        ensures finds { Loads pass.old.view.roles.index pass.old.view.least.indexed result }
    {
        self.table.shared.load::<SeeIndexed>(&mut pass.seat, 3)
    }

    /// How many calls of the disk have failed, which the pass then knows.
    pub fn load_failed(&self, pass: &mut Pass) -> u64
        requires { pass.old.table ≡ self.now.table }
        ensures table { pass.new.table ≡ pass.old.table }
        ensures view { pass.new.view ≡ looked_failed pass.old.view result }
        ensures finds { Loads pass.old.view.roles.journal pass.old.view.least.failed result }
    {
        self.table.shared.load::<SeeFailed>(&mut pass.seat, 4)
    }

    fn store_as<J: Added>(&self, pass: &mut Pass, item: &LogItem, new: u64)
        requires picked { J.item ≡ item.now }
        requires table { pass.old.table ≡ self.now.table }
        requires role { pass.old.view.roles.book ≡ true }
        requires weight { 0 < pass.old.view.weight }
        requires next { new ≡ length pass.old.view.seen + 1 }
        requires fresh { item.now.found ≡ false }
        requires lawful { L.allows (pass.old.view.seen ++ item.now ∷ []) }
        requires laid { AreAppended self.now.logs (length pass.old.view.seen + 1) 0 (references_of pass.old.view.seen) item.now.refs }
        requires sized { HaveLengths item.now.tx.entries item.now.refs }
        ensures table { pass.new.table ≡ pass.old.table }
        ensures view { pass.new.view ≡ added pass.old.view item.now }
    {
        let _ = item;
        self.table.shared.store::<Adding<J>>(&mut pass.seat, 0, new);
    }

    /// Places a transaction behind all that was placed. Its number, `new`, is the last of the pass's own numbers then.
    /// The law holds of the list with it, its values lie where the rule of the value logs puts them, and there is a
    /// reference for each entry, with its value's length.
    pub fn store_placed(&self, pass: &mut Pass, item: &LogItem, new: u64)
        requires table { pass.old.table ≡ self.now.table }
        requires role { pass.old.view.roles.book ≡ true }
        requires weight { 0 < pass.old.view.weight }
        requires next { new ≡ length pass.old.view.seen + 1 }
        requires fresh { item.now.found ≡ false }
        requires lawful { L.allows (pass.old.view.seen ++ item.now ∷ []) }
        requires laid { AreAppended self.now.logs (length pass.old.view.seen + 1) 0 (references_of pass.old.view.seen) item.now.refs }
        requires sized { HaveLengths item.now.tx.entries item.now.refs }
        ensures table { pass.new.table ≡ pass.old.table }
        ensures view { pass.new.view ≡ added pass.old.view item.now }
    {
        self.store_as::<Brand>(pass, item, new);
    }

    /// Tells that the first `new` transactions are durable, of those that the pass has seen.
    pub fn store_durable(&self, pass: &mut Pass, new: u64)
        requires table { pass.old.table ≡ self.now.table }
        requires role { pass.old.view.roles.journal ≡ true }
        requires more { pass.old.view.least.durable ≤ new }
        requires within { new ≤ length pass.old.view.seen }
        ensures table { pass.new.table ≡ pass.old.table }
        ensures view { pass.new.view ≡ view_settled pass.old.view new }
    {
        self.table.shared.store::<Settling>(&mut pass.seat, 1, new);
    }

    /// Tells that the first `new` transactions are linked, of those that the pass knows to be durable, and adds the
    /// difference to its leaves.
    pub fn store_linked(&self, pass: &mut Pass, new: u64)
        requires table { pass.old.table ≡ self.now.table }
        requires role { pass.old.view.roles.tree ≡ true }
        requires weight { 0 < pass.old.view.weight }
        requires more { pass.old.view.least.linked ≤ new }
        requires within { new ≤ pass.old.view.least.durable }
        ensures table { pass.new.table ≡ pass.old.table }
        ensures view { pass.new.view ≡ linked_to pass.old.view new }
    {
        self.table.shared.store::<Linking>(&mut pass.seat, 2, new);
    }

    /// Tells that the first `new` transactions are indexed, of those that the pass knows to be durable.
    pub fn store_indexed(&self, pass: &mut Pass, new: u64)
        requires table { pass.old.table ≡ self.now.table }
        requires role { pass.old.view.roles.index ≡ true }
        requires more { pass.old.view.least.indexed ≤ new }
        requires within { new ≤ pass.old.view.least.durable }
        ensures table { pass.new.table ≡ pass.old.table }
        ensures view { pass.new.view ≡ indexed_to pass.old.view new }
    {
        self.table.shared.store::<Indexing>(&mut pass.seat, 3, new);
    }

    /// Tells one failure more, and adds it to the pass's faults.
    pub fn store_failed(&self, pass: &mut Pass, new: u64)
        requires table { pass.old.table ≡ self.now.table }
        requires role { pass.old.view.roles.journal ≡ true }
        requires weight { 0 < pass.old.view.weight }
        requires next { new ≡ pass.old.view.least.failed + 1 }
        ensures table { pass.new.table ≡ pass.old.table }
        ensures view { pass.new.view ≡ failed_once pass.old.view }
    {
        self.table.shared.store::<Failing>(&mut pass.seat, 4, new);
    }

    fn split_as<J: Cut>(&self, pass: &mut Pass, roles: Roles, weight: u64) -> Pass
        requires picked { (J.roles ≡ roles) × (J.weight ≡ weight) }
        requires table { pass.old.table ≡ self.now.table }
        requires role { AreHeld pass.old.view.roles roles }
        requires weight { weight < pass.old.view.weight }
        ensures left { (pass.new.table ≡ pass.old.table) × (pass.new.view ≡ left_of roles weight pass.old.view) }
        ensures right { (result.table ≡ pass.old.table) × (result.view ≡ right_of roles weight pass.old.view) }
    {
        let _ = (roles, weight);
        let seat = self.table.shared.split_seat::<Cutting<J>>(&mut pass.seat);
        Pass { seat }
    }

    /// A new pass that has seen and knows as much, with these of the pass's roles and this much of its weight, some of
    /// which stays. It has no own numbers, leaves, faults or loads.
    pub fn split(&self, pass: &mut Pass, roles: Roles, weight: u64) -> Pass
        requires table { pass.old.table ≡ self.now.table }
        requires role { AreHeld pass.old.view.roles roles }
        requires weight { weight < pass.old.view.weight }
        ensures left { (pass.new.table ≡ pass.old.table) × (pass.new.view ≡ left_of roles weight pass.old.view) }
        ensures right { (result.table ≡ pass.old.table) × (result.view ≡ right_of roles weight pass.old.view) }
    {
        self.split_as::<Brand>(pass, roles, weight)
    }

    /// Takes in another pass: the longer list, of which each list before is a front part, the greater numbers, the
    /// roles of both, the own numbers of both, and the sums of weights, leaves and faults. It answers how many
    /// transactions are placed: no fewer than the list has, and just as many where one of the two has the role of the
    /// book.
    pub fn join(&self, pass: &mut Pass, other: Pass) -> u64
        requires table { pass.old.table ≡ self.now.table }
        requires other { other.table ≡ self.now.table }
        ensures table { pass.new.table ≡ pass.old.table }
        ensures view { pass.new.view ≡ view_joined pass.old.view other.view }
        ensures mine { IsPrefix pass.old.view.seen pass.new.view.seen }
        ensures theirs { IsPrefix other.view.seen pass.new.view.seen }
        ensures durable { (pass.old.view.least.durable ≤ pass.new.view.least.durable) × (other.view.least.durable ≤ pass.new.view.least.durable) }
        ensures linked { (pass.old.view.least.linked ≤ pass.new.view.least.linked) × (other.view.least.linked ≤ pass.new.view.least.linked) }
        ensures indexed { (pass.old.view.least.indexed ≤ pass.new.view.least.indexed) × (other.view.least.indexed ≤ pass.new.view.least.indexed) }
        ensures failed { (pass.old.view.least.failed ≤ pass.new.view.least.failed) × (other.view.least.failed ≤ pass.new.view.least.failed) }
        ensures least { length pass.new.view.seen ≤ result }
        ensures whole { pass.new.view.roles.book ≡ true → result ≡ length pass.new.view.seen }
    {
        let Pass { seat } = other;
        self.table.shared.join_seat::<Joining>(&mut pass.seat, seat);
        self.table.shared.load::<Comparing>(&mut pass.seat, 0)
    }

    /// Takes in the pass that lies under a lock, with its roles, and leaves one in its place that has no role and no
    /// weight: what a call does first that has got the lock. It answers what `join` does.
    pub fn fetch(&self, keeper: &mut Pass, pass: &mut Pass) -> u64
        requires table { (pass.old.table ≡ self.now.table) × (keeper.old.table ≡ self.now.table) }
        requires weight { 0 < pass.old.view.weight }
        ensures table { (pass.new.table ≡ pass.old.table) × (keeper.new.table ≡ keeper.old.table) }
        ensures view { pass.new.view ≡ view_joined pass.old.view keeper.old.view }
        ensures stand_in { keeper.new.view ≡ right_of no_roles 0 pass.old.view }
        ensures mine { IsPrefix pass.old.view.seen pass.new.view.seen }
        ensures theirs { IsPrefix keeper.old.view.seen pass.new.view.seen }
        ensures durable { (pass.old.view.least.durable ≤ pass.new.view.least.durable) × (keeper.old.view.least.durable ≤ pass.new.view.least.durable) }
        ensures linked { (pass.old.view.least.linked ≤ pass.new.view.least.linked) × (keeper.old.view.least.linked ≤ pass.new.view.least.linked) }
        ensures indexed { (pass.old.view.least.indexed ≤ pass.new.view.least.indexed) × (keeper.old.view.least.indexed ≤ pass.new.view.least.indexed) }
        ensures failed { (pass.old.view.least.failed ≤ pass.new.view.least.failed) × (keeper.old.view.least.failed ≤ pass.new.view.least.failed) }
        ensures least { length pass.new.view.seen ≤ result }
        ensures whole { pass.new.view.roles.book ≡ true → result ≡ length pass.new.view.seen }
    {
        let stand_in = self.split(pass, no_roles(), 0);
        let own = mem::replace(keeper, stand_in);
        self.join(pass, own)
    }

    fn close_as<O: Origin>(&self, pass: &mut Pass) -> u64
        requires picked { (O.found ≡ self.now.found) × (O.logs ≡ self.now.logs) }
        requires table { pass.old.table ≡ self.now.table }
        requires role { pass.old.view.roles.book ≡ true }
        ensures same { pass.new ≡ pass.old }
        ensures begins { IsPrefix self.now.found pass.old.view.seen }
        ensures whole { result ≡ length pass.old.view.seen }
        ensures meets { IsLawful L.allows self.now.logs pass.old.view.seen }
        ensures owned { pass.old.view.weight ≡ 1048576 → (k : ℕ) → times k pass.old.view.own ≡ times k (placed_by pass.old.view.seen) }
        ensures leaves { pass.old.view.weight ≡ 1048576 → pass.old.view.roles.tree ≡ true → pass.old.view.leaves + length self.now.found ≡ pass.old.view.least.linked }
        ensures faults { pass.old.view.weight ≡ 1048576 → pass.old.view.roles.journal ≡ true → pass.old.view.faults ≡ pass.old.view.least.failed }
    {
        self.table.shared.load::<Closing<L, O>>(&mut pass.seat, 0)
    }

    /// How long the one list is, told by a pass that has the role of the book. The law holds of it, and its references
    /// lie by the rule of the value logs. With the whole weight the pass's own numbers are those of all that was not
    /// found, each once; with the role of the tree too, its leaves are the tree's growth; and with the journal's, its
    /// faults are all failures that were told. The pass stays as it was.
    pub fn close(&self, pass: &mut Pass) -> u64
        requires table { pass.old.table ≡ self.now.table }
        requires role { pass.old.view.roles.book ≡ true }
        ensures same { pass.new ≡ pass.old }
        ensures begins { IsPrefix self.now.found pass.old.view.seen }
        ensures whole { result ≡ length pass.old.view.seen }
        ensures meets { IsLawful L.allows self.now.logs pass.old.view.seen }
        ensures owned { pass.old.view.weight ≡ 1048576 → (k : ℕ) → times k pass.old.view.own ≡ times k (placed_by pass.old.view.seen) }
        ensures leaves { pass.old.view.weight ≡ 1048576 → pass.old.view.roles.tree ≡ true → pass.old.view.leaves + length self.now.found ≡ pass.old.view.least.linked }
        ensures faults { pass.old.view.weight ≡ 1048576 → pass.old.view.roles.journal ≡ true → pass.old.view.faults ≡ pass.old.view.least.failed }
    {
        self.close_as::<Brand>(pass)
    }
}
