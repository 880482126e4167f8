//! Two threads over the words of one tip.

ghost use Rattle.std.specs.Prelude.{◌≡◌, ◌<◌, true, false, []};
ghost use Rattle.im_table.specs.Views.{either_of, no_roles, opener, right_of};
ghost use Rattle.im_table.specs.Passes.{journal_role, index_role, book_role, tree_role, Later};

use im_format::references::Refs;
use im_model::entries::Entries;
use im_model::transactions::Transaction;
use im_table::items::{LogItem, Opening};
use im_table::law::Free;
use im_table::pass::Pass;
use im_table::roles::Roles;
use im_table::tip::Tip;
use std::alloc::{AllocError, Global};
use std::thread::{Threads, join};

// The roles of the thread that places and makes durable.
fn writing() -> Roles
    ensures { result ≡ either_of journal_role book_role }
{
    Roles {
        journal: true,
        index: false,
        book: true,
        tree: false,
    }
}

// The roles of the thread that links and indexes.
fn showing() -> Roles
    ensures { result ≡ either_of index_role tree_role }
{
    Roles {
        journal: false,
        index: true,
        book: false,
        tree: true,
    }
}

// A transaction with no entries, and so with no values.
fn empty_item(alloc: Global) -> LogItem
    ensures { (result.found ≡ false) × (result.tx.entries ≡ []) × (result.refs ≡ []) }
{
    let tx = Transaction {
        ts: 0,
        entries: Entries::from_vec(Vec::new(alloc)),
        bl: 0,
    };
    LogItem {
        found: false,
        tx,
        refs: Refs::from_vec(Vec::new(alloc)),
    }
}

// Places the first transaction, and tells that it is durable.
fn place_first(tip: &Tip<Free>, mut pass: Pass, item: LogItem) -> Pass
    requires table { pass.table ≡ tip.now.table }
    requires view { pass.view ≡ right_of (either_of journal_role book_role) 1 (opener []) }
    requires item { (item.found ≡ false) × (item.tx.entries ≡ []) × (item.refs ≡ []) }
    ensures table { result.table ≡ tip.now.table }
    ensures roles { result.view.roles ≡ either_of journal_role book_role }
{
    tip.store_placed(&mut pass, &item, 1);
    tip.store_durable(&mut pass, 1);
    drop(item);
    pass
}

// Links and indexes what is durable by now.
fn show_durable(tip: &Tip<Free>, pass: &mut Pass)
    requires table { pass.old.table ≡ tip.now.table }
    requires roles { (pass.old.view.roles.tree ≡ true) × (pass.old.view.roles.index ≡ true) }
    requires weight { 0 < pass.old.view.weight }
    ensures { Later pass.old pass.new }
{
    let durable = tip.load_durable(pass);
    let linked = tip.load_linked(pass);
    let indexed = tip.load_indexed(pass);
    if linked > durable || indexed > durable {
        return;
    }
    tip.store_linked(pass, durable);
    tip.store_indexed(pass, durable);
}

// The same by a thread that owns its pass.
fn show_first(tip: &Tip<Free>, mut pass: Pass) -> Pass
    requires table { pass.table ≡ tip.now.table }
    requires roles { pass.view.roles ≡ either_of index_role tree_role }
    requires weight { 0 < pass.view.weight }
    ensures table { result.table ≡ tip.now.table }
    ensures roles { result.view.roles ≡ either_of index_role tree_role }
{
    show_durable(tip, &mut pass);
    pass
}

// Takes in both threads' passes, links and indexes what is left, and gives the words placed, durable, linked and
// indexed.
fn gather(tip: &Tip<Free>, pass: &mut Pass, one: Pass, two: Pass) -> [u64; 4]
    requires tables { (pass.old.table ≡ tip.now.table) × (one.table ≡ tip.now.table) × (two.table ≡ tip.now.table) }
    requires pass { (pass.old.view.roles ≡ no_roles) × (0 < pass.old.view.weight) }
    requires one { one.view.roles ≡ either_of journal_role book_role }
    requires two { two.view.roles ≡ either_of index_role tree_role }
{
    tip.join(pass, one);
    tip.join(pass, two);
    show_durable(tip, pass);
    let durable = tip.load_durable(pass);
    let linked = tip.load_linked(pass);
    let indexed = tip.load_indexed(pass);
    [tip.close(pass), durable, linked, indexed]
}

// One thread places, and makes durable; beside it another links and indexes what it finds durable.
fn run_over<R: Threads + Sync>(rt: &R, tip: Tip<Free>, mut pass: Pass, item: LogItem) -> [u64; 4]
    requires pass { (pass.table ≡ tip.table) × (pass.view ≡ opener []) }
    requires item { (item.found ≡ false) × (item.tx.entries ≡ []) × (item.refs ≡ []) }
{
    let one = tip.split(&mut pass, writing(), 1);
    let two = tip.split(&mut pass, showing(), 1);
    let shared = &tip;
    let (one, two) = join(
        rt,
        move || -> Pass
            requires { (one.table ≡ shared.now.table) × (one.view ≡ right_of (either_of journal_role book_role) 1 (opener [])) × (item.found ≡ false) × (item.tx.entries ≡ []) × (item.refs ≡ []) }
            ensures { (result.table ≡ shared.entry.now.table) × (result.view.roles ≡ either_of journal_role book_role) }
        { place_first(shared, one, item) },
        move || -> Pass
            requires { (two.table ≡ shared.now.table) × (two.view.roles ≡ either_of index_role tree_role) × (0 < two.view.weight) }
            ensures { (result.table ≡ shared.entry.now.table) × (result.view.roles ≡ either_of index_role tree_role) }
        { show_first(shared, two) },
    );
    gather(&tip, &mut pass, one, two)
}

/// The words placed, durable, linked and indexed behind two threads, of which one places a transaction and makes it durable,
/// and the other links and indexes.
pub(crate) fn run<R: Threads + Sync>(rt: &R, alloc: Global) -> Result<[u64; 4], AllocError> {
    let opening = Opening {
        found: Vec::new(alloc),
        logs: 1,
    };
    let opened = Tip::<Free>::open(alloc, &opening);
    drop(opening);
    let (tip, pass) = opened?;
    Ok(run_over(rt, tip, pass, empty_item(alloc)))
}
