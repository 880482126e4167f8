use im_wire::messages::Message;

/// What a client has of a message that it keeps.
#[derive(Drop)]
pub enum Note<'l> {
    /// The message itself: it was handed to the client.
    Told {
        /// That message.
        message: Box<Message>,
    },
    /// The line that says it. Its octets stay with whoever lent them; the message is read again where it is needed.
    Line {
        /// That line, without its LF.
        line: &'l [u8],
    },
}
