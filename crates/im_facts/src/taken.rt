use im_client::faults::LineFault;
use im_octet::octets::Octets;
use im_wire::messages::Message;

/// What an accepted message shows, as its line tells it.
#[derive(Clone, Copy, Debug, PartialEq, Eq)]
pub enum Shown {
    /// A state, and its number.
    State { id: u64 },
    /// A dual proof from transaction `s` to `t`.
    Dual { s: u64, t: u64 },
    /// An advance from transaction `s` to `t`.
    Advance { s: u64, t: u64 },
    /// Entry `i`, from 0, of transaction `t`.
    Item { t: u64, i: u32 },
}

/// The answer of a client to a message.
#[derive(Drop)]
pub enum Taken {
    /// Every check holds and no fact is unlike a kept one; what it shows is known now.
    Accepted { shown: Shown },
    /// The first check that fails. Nothing changed.
    Refused { fault: LineFault },
    /// Every check holds, but a fact is unlike the kept one of its place: two unequal strings of one digest, both among
    /// those hashed in checking the messages that the client has notes of and this one. Nothing changed.
    Forked { x: Octets, y: Octets },
}

/// The answer of a client to a line, and its accepted message.
#[derive(Drop)]
pub struct LineTaking {
    /// The answer: `None` for a line that is passed over.
    pub taken: Option<Taken>,
    /// The message of the line, where it is accepted.
    pub accepted: Option<Message>,
}
