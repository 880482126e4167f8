ghost use Rattle.std.specs.Prelude.{◌≡◌, ℕ, List, ◌++◌, codes, Option, Some};
ghost use Rattle.serde_json.specs.Written.{compact_text};
ghost use Rattle.im_model.specs.declared.headers.Header.{Header};
ghost use Rattle.im_wire.specs.Headers.{header_text};
ghost use Rattle.im_wire.specs.declared.messages.Message.{Message};
ghost use Rattle.im_wire.specs.declared.messages.Message.TheVariants.{State};
ghost use Rattle.im_wire.specs.Fits.{IsHeader, IsMessage};
ghost use Rattle.im_wire.specs.Lines.{IsLine};
ghost use Rattle.im_wire.specs.Messages.{HasMessage};
ghost use Rattle.im_wire.specs.Texts.{header_data, text};

/// A line says one thing at most.
pub fn one_reading()
    ensures { (line : List ℕ) (a b : Option Message) → IsLine line a → IsLine line b → a ≡ b }
{}

/// A text says one message at most.
pub fn one_message()
    ensures { (text : List ℕ) (a b : Message) → HasMessage text a → HasMessage text b → a ≡ b }
{}

/// The text of a header in a message is the text of a header in a reply.
pub fn one_header_text()
    ensures inside { (header : Header) → IsHeader header → compact_text (header_data header) ≡ header_text header }
    ensures state { (header : Header) → IsHeader header
        → text (State header) ≡ codes "{\"header\":" ++ header_text header ++ codes ",\"type\":\"state\"}" }
{}

/// A message that a line says has the ranges of its types.
pub fn a_message_of_a_line_fits()
    ensures { (line : List ℕ) (message : Message) → IsLine line (Some message) → IsMessage message }
{}
