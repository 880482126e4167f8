ghost use Rattle.std.specs.Prelude.{◌≡◌, codes, option_map};
ghost use Rattle.serde_json.specs.View.{view};
ghost use Rattle.serde_json.specs.Find.{as_str};
ghost use Rattle.im_wire.specs.Gives.{GivesReading, ReadsOrRefuses};
ghost use Rattle.im_wire.specs.Fields.{field};
ghost use Rattle.im_wire.specs.Messages.{state_message, dual_message, advance_message, item_message, message_as, message_of, HasMessage};

mod fields;
mod records;
mod values;

use crate::errors::WireError;
use crate::messages::Message;
use crate::reading::fields::{digests_field, u32_field};
use crate::reading::records::{anchor_field, dual_proof_field, entry_field, header_field};
use serde_json::Value;
use std::alloc::Global;

// The message that is a state.
#[tactic(auto, unfolding(crate::specs::Messages::state_message))]
fn state_message(alloc: Global, value: &Value) -> Result<Message, WireError>
    ensures { GivesReading result (state_message (view value.now)) }
{
    let header = header_field(alloc, value, "header")?;
    Ok(Message::State { header })
}

// The message that is a dual proof.
#[tactic(auto, unfolding(crate::specs::Messages::dual_message))]
fn dual_message(alloc: Global, value: &Value) -> Result<Message, WireError>
    ensures { GivesReading result (dual_message (view value.now)) }
{
    let dual = dual_proof_field(alloc, value, "dual")?;
    Ok(Message::Dual { dual })
}

// The message that is an advance.
#[tactic(auto, unfolding(crate::specs::Messages::advance_message))]
fn advance_message(alloc: Global, value: &Value) -> Result<Message, WireError>
    ensures { GivesReading result (advance_message (view value.now)) }
{
    let anchor = anchor_field(alloc, value, "anchor")?;
    match dual_proof_field(alloc, value, "dual") {
        Ok(dual) => Ok(Message::Advance { dual, anchor }),
        Err(error) => {
            drop(anchor);
            Err(error)
        }
    }
}

// The message that is an item.
#[tactic(auto, unfolding(crate::specs::Messages::item_message))]
fn item_message(alloc: Global, value: &Value) -> Result<Message, WireError>
    ensures { GivesReading result (item_message (view value.now)) }
{
    let dual = dual_proof_field(alloc, value, "dual")?;
    let entry = match entry_field(alloc, value, "entry") {
        Ok(entry) => entry,
        Err(error) => {
            drop(dual);
            return Err(error);
        }
    };
    match (
        u32_field(value, "index"),
        digests_field(alloc, value, "path"),
    ) {
        (Ok(index), Ok(path)) => Ok(Message::Item {
            dual,
            entry,
            index,
            path,
        }),
        (Err(error), _) | (_, Err(error)) => {
            drop(dual);
            drop(entry);
            Err(error)
        }
    }
}

// The message of that type.
#[tactic(auto, unfolding(crate::specs::Messages::message_as))]
fn message_as(alloc: Global, kind: &str, value: &Value) -> Result<Message, WireError>
    ensures { GivesReading result (message_as kind.now (view value.now)) }
{
    if kind == "state" {
        return state_message(alloc, value);
    }
    if kind == "dual" {
        return dual_message(alloc, value);
    }
    if kind == "advance" {
        return advance_message(alloc, value);
    }
    if kind == "item" {
        return item_message(alloc, value);
    }
    Err(WireError::Syntax)
}

// The type that a value names.
fn kind_of(value: &Value) -> Option<&str>
    ensures { option_map (λ kind. kind.now) result ≡ field (codes "type") as_str (view value.now) }
{
    match value.get("type") {
        Some(value) => value.as_str(),
        None => None,
    }
}

// The message of the type that the value names.
#[tactic(auto, unfolding(crate::specs::Messages::message_of))]
fn message_of(alloc: Global, value: &Value) -> Result<Message, WireError>
    ensures { GivesReading result (message_of (view value.now)) }
{
    match kind_of(value) {
        Some(kind) => message_as(alloc, kind, value),
        None => Err(WireError::Syntax),
    }
}

/// The message that a text of JSON says (RFC 8259): one value and whitespace, nested at most 127 deep.
/// `write`, its twin, writes a message.
///
/// Hex is read in both cases. Of equal names in an object the last counts, and unknown members are passed
/// over. `Syntax` exactly where the text says no message: no UTF-8, no JSON, a member missing or of
/// another type, a number out of its type's range or written with a fraction or an exponent, a digest
/// that isn't 32 octets, metadata over 256 octets, a key that isn't 1 to 1024, a value over 4096.
pub fn read_message(alloc: Global, text: &[u8]) -> Result<Message, WireError>
    ensures { ReadsOrRefuses result (HasMessage text.now) }
{
    match Value::from_slice(alloc, text) {
        Ok(value) => message_of(alloc, &value),
        Err(error) if error.is_memory() => Err(WireError::Memory),
        Err(_) => Err(WireError::Syntax),
    }
}
