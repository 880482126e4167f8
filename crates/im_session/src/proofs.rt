//! Replies that show headers and proofs.

ghost use Rattle.std.specs.Prelude.{◌≡◌, IfErr, IfOk, Ok};
ghost use Rattle.im_script.specs.declared.commands.Command.TheVariants as says;
ghost use Rattle.im_session.specs.Answered.{IsAnswered, IsUnanswered};
ghost use Rattle.im_table.specs.Passes.{IsPassOf, Later};
ghost use Rattle.im_wire.specs.Messages.{HasMessage};
ghost use Rattle.im_wire.specs.Texts.{text};
ghost use Rattle.im_wire.specs.declared.messages.Message.TheVariants as message;

use im_dealing::answers::Answer;
use im_dealing::errors::LineError;
use im_dealing::proofs::{message_text, refused_between};
use im_digest::Hash32;
use im_disk::disk::Disk;
use im_edge::clock::Clock;
use im_header::alh;
use im_report::replies::{beyond_text, header_shown, no_entry_text};
use im_sqllaw::law::SqlKeys;
use im_store::answers::{Advance, ProvedEntry};
use im_store::errors::{ItemError, ProveError};
use im_store::store::Store;
use im_table::pass::Pass;
use im_table::tip_name::TipName;
use im_wire::messages::Message;
use std::alloc::{AllocError, Global};
use std::sync::Wait;

// Numbers that were compared before are in order and durable: want of memory is the only error left.
fn proved<T: Drop>(given: Result<T, ProveError>) -> Result<T, AllocError>
    requires memory { IfErr given (λ error. error ≡ ProveError.Memory) }
    ensures same { IfOk result (λ value. given ≡ Ok value) }
{
    match given {
        Ok(value) => Ok(value),
        Err(ProveError::Memory) => Err(AllocError),
        Err(ProveError::Order { .. } | ProveError::Beyond { .. }) => unreachable!(),
    }
}

/// Answers `header`: the header of a transaction, with its Alh, which is two hashes.
pub(crate) fn answer_header<H: Hash32, D: Disk, C: Clock, N: TipName, R: Wait>(
    rt: &R,
    alloc: Global,
    store: &Store<'_, H, D, C, SqlKeys, N>,
    pass: &mut Pass,
    k: u64,
) -> Result<Answer, LineError>
    requires pass { IsPassOf N.table pass.old }
    ensures later { Later pass.old pass.new }
    ensures ok { IfOk result (λ answer. IsAnswered N.digest pass.old pass.new (says.Header k) answer) }
    ensures err { IfErr result (λ why. IsUnanswered pass.old pass.new (says.Header k) why) }
{
    let number = store.tip(pass);
    if k == 0 {
        let reply = Vec::from_slice(alloc, b"refused order 0 0")?;
        return Ok(Answer { number, reply });
    }
    if number < k {
        let reply = beyond_text(alloc, number)?;
        return Ok(Answer { number, reply });
    }
    let header = proved(store.header(rt, alloc, pass, k))?;
    let shown = header_shown(alloc, &alh(store.hash(), &header), &header);
    drop(header);
    let reply = shown?;
    Ok(Answer { number, reply })
}

/// Answers `state`: the header of the last durable transaction, which is copied.
pub(crate) fn answer_state<H: Hash32, D: Disk, C: Clock, N: TipName, R: Wait>(
    rt: &R,
    alloc: Global,
    store: &Store<'_, H, D, C, SqlKeys, N>,
    pass: &mut Pass,
) -> Result<Answer, LineError>
    requires pass { IsPassOf N.table pass.old }
    ensures later { Later pass.old pass.new }
    ensures ok { IfOk result (λ answer. IsAnswered N.digest pass.old pass.new says.State answer) }
    ensures err { IfErr result (λ why. IsUnanswered pass.old pass.new says.State why) }
{
    let number = store.tip(pass);
    if number == 0 {
        let reply = Vec::from_slice(alloc, b"refused empty")?;
        return Ok(Answer { number, reply });
    }
    let header = proved(store.header(rt, alloc, pass, number))?;
    let reply = message_text(alloc, Message::State { header })?;
    Ok(Answer { number, reply })
}

/// Answers `prove`: the dual proof between two transactions. What that costs is said at the store's `prove`.
pub(crate) fn answer_prove<H: Hash32, D: Disk, C: Clock, N: TipName, R: Wait>(
    rt: &R,
    alloc: Global,
    store: &Store<'_, H, D, C, SqlKeys, N>,
    pass: &mut Pass,
    s: u64,
    t: u64,
) -> Result<Answer, LineError>
    requires pass { IsPassOf N.table pass.old }
    ensures later { Later pass.old pass.new }
    ensures ok { IfOk result (λ answer. IsAnswered N.digest pass.old pass.new (says.Prove s t) answer) }
    ensures err { IfErr result (λ why. IsUnanswered pass.old pass.new (says.Prove s t) why) }
{
    let number = store.tip(pass);
    if let Some(reply) = refused_between(alloc, number, s, t)? {
        return Ok(Answer { number, reply });
    }
    let dual = proved(store.prove(rt, alloc, pass, s, t))?;
    let reply = message_text(alloc, Message::Dual { dual })?;
    Ok(Answer { number, reply })
}

/// Answers `advance`: the dual proof between two transactions, and its anchor where one is due.
pub(crate) fn answer_advance<H: Hash32, D: Disk, C: Clock, N: TipName, R: Wait>(
    rt: &R,
    alloc: Global,
    store: &Store<'_, H, D, C, SqlKeys, N>,
    pass: &mut Pass,
    s: u64,
    t: u64,
) -> Result<Answer, LineError>
    requires pass { IsPassOf N.table pass.old }
    ensures later { Later pass.old pass.new }
    ensures ok { IfOk result (λ answer. IsAnswered N.digest pass.old pass.new (says.Advance s t) answer) }
    ensures err { IfErr result (λ why. IsUnanswered pass.old pass.new (says.Advance s t) why) }
{
    let number = store.tip(pass);
    if let Some(reply) = refused_between(alloc, number, s, t)? {
        return Ok(Answer { number, reply });
    }
    let Advance { dual, anchor } = proved(store.advance(rt, alloc, pass, s, t))?;
    let reply = message_text(alloc, Message::Advance { dual, anchor })?;
    Ok(Answer { number, reply })
}

// The text of a proved entry.
fn entry_text(alloc: Global, proved: ProvedEntry) -> Result<Vec<u8>, AllocError>
    ensures text { IfOk result (λ octets. octets.items ≡ text (message.Item proved.dual proved.entry proved.index proved.path)) }
    ensures again { IfOk result (λ octets. HasMessage octets.items (message.Item proved.dual proved.entry proved.index proved.path)) }
{
    let ProvedEntry {
        dual,
        entry,
        index,
        path,
    } = proved;
    message_text(
        alloc,
        Message::Item {
            dual,
            entry,
            index,
            path,
        },
    )
}

/// Answers `item`: an entry of a transaction by its index, proved under the named state, or under the last durable one. What that costs
/// is said at the store's `item`.
pub(crate) fn answer_item<H: Hash32, D: Disk, C: Clock, N: TipName, R: Wait>(
    rt: &R,
    alloc: Global,
    store: &Store<'_, H, D, C, SqlKeys, N>,
    pass: &mut Pass,
    t: u64,
    index: u32,
    under: Option<u64>,
) -> Result<Answer, LineError>
    requires pass { IsPassOf N.table pass.old }
    ensures later { Later pass.old pass.new }
    ensures ok { IfOk result (λ answer. IsAnswered N.digest pass.old pass.new (says.Item t index under) answer) }
    ensures err { IfErr result (λ why. IsUnanswered pass.old pass.new (says.Item t index under) why) }
{
    let number = store.tip(pass);
    let state = under.unwrap_or(number);
    if let Some(reply) = refused_between(alloc, number, t, state)? {
        return Ok(Answer { number, reply });
    }
    match store.item(rt, alloc, pass, t, index, state) {
        Ok(proved) => {
            let reply = entry_text(alloc, proved)?;
            Ok(Answer { number, reply })
        }
        Err(ItemError::NoEntry { width }) => {
            let reply = no_entry_text(alloc, u64::from(width))?;
            Ok(Answer { number, reply })
        }
        Err(ItemError::Memory) => Err(LineError::Memory),
        Err(ItemError::Order { .. } | ItemError::Beyond { .. }) => unreachable!(),
    }
}
