ghost use Rattle.std.specs.Prelude.{◌≡◌, ◌<◌, List, IfOk, OnErr, AllPairs, option_map};
ghost use Rattle.im_digest.specs.Digests.{Hash};
ghost use Rattle.im_model.specs.declared.headers.Header.{Header as TheHeader};
ghost use Rattle.im_wire.specs.Fits.{IsMessage};
ghost use Rattle.im_wire.specs.Lines.{IsLine};
ghost use Rattle.im_wire.specs.declared.messages.Message.{Message as TheMessage};
ghost use Rattle.im_facts.specs.Folds.{IsTakenAs, IsVerdict, accepted_behind, accepted_by, known_behind, known_by};
ghost use Rattle.im_facts.specs.Facts.{nothing, IsBefore, Known};
ghost use Rattle.im_facts.specs.Judging.{IsJudged};
ghost use Rattle.im_facts.specs.Keeping.{known_of, none_kept, AreOf, IsLed, Knows};
ghost use Rattle.im_facts.specs.Verdicts.{Verdict, shown_of, taken_of};

mod judging;

use crate::facts::EntryFact;
use crate::judged::Judged;
use crate::notes::Note;
use crate::states::{State, header_of};
use crate::taken::{LineTaking, Shown, Taken};
use im_client::faults::LineFault;
use im_digest::Hash32;
use im_model::headers::Header;
use im_wire::errors::WireError;
use im_wire::fits::message_fits;
use im_wire::lines::read_line;
use im_wire::messages::Message;
use std::alloc::{AllocError, Global};
use std::marker::Model;

/// A client that trusts nobody: it keeps a state, and every header and entry that accepted messages showed. Of each accepted
/// message that showed something new or moved the state it keeps a note: its line, which stays with whoever lent it, or the
/// message, where that was handed in. The strings of a fork are among those hashed for the messages of these notes and the
/// forked one. A clause sees its hash function and what it keeps.
///
/// # Thread safety
///
/// None of its own: one run holds it.
///
/// # Invariants
///
/// `IsLed`, for its hash function: there is something that it knows (`Knows`), by messages which its notes are of, each accepted
/// behind those before it, and that is one thing (`a_client_knows_one_thing`). `new` begins with it, and `take`, `take_line` and
/// `take_line_out` ask for it and keep it. Beside the state it keeps that header's Alh, so that no line hashes it again.
#[derive(Drop)]
pub struct FactClient<'h, 'l, H: Hash32> {
    hash: &'h H,
    state: Option<State>,
    headers: Vec<Header>,
    entries: Vec<EntryFact>,
    notes: Vec<Note<'l>>,
}

impl<'h, 'l, H: Hash32> Model for FactClient<'h, 'l, H> {
    ghost use Rattle.std.specs.Prelude.{◌≡◌, IfSome, option_map};
    ghost use Rattle.im_model.specs.Headers.{alh};
    ghost use Rattle.im_facts.specs.Keeping.{Keeping};

    ghost Value = { Keeping H };

    ghost view = { λ s. record {
      hash = s.hash.now;
      kept = record { state = option_map (λ state. state.header) s.state; headers = s.headers.items; entries = s.entries.items; notes = s.notes.items };
    } };

    ghost invariant = { λ s. IfSome s.state (λ state. state.alh ≡ alh (H.digest s.hash.now) state.header) };
}

impl<'h, 'l, H: Hash32> FactClient<'h, 'l, H> {
    /// A client that knows nothing, under a hash function. It takes no memory.
    pub fn new(alloc: Global, hash: &'h H) -> Self
        ensures empty { Knows result.kept nothing }
        ensures hash { result.hash ≡ hash.now }
        ensures led { (function : Hash) → IsLed function result.kept }
    {
        Self::fresh(alloc, hash)
    }

    // A client that keeps nothing.
    fn fresh(alloc: Global, hash: &'h H) -> Self
        ensures empty { result.kept ≡ none_kept }
        ensures hash { result.hash ≡ hash.now }
    {
        FactClient {
            hash,
            state: None,
            headers: Vec::new(alloc),
            entries: Vec::new(alloc),
            notes: Vec::new(alloc),
        }
    }

    /// The state that it keeps.
    pub fn state(&self) -> Option<&Header>
        ensures { option_map (λ header. header.now) result ≡ self.now.kept.state }
    {
        header_of(&self.state)
    }

    /// Lends the kept headers by rising number, one for each number at most.
    pub fn headers(&self) -> &[Header]
        ensures list { result.now ≡ self.now.kept.headers }
        ensures rising { (hash : Hash) → IsLed hash self.now.kept → AllPairs (λ (a b : TheHeader). a.id < b.id) result.now }
    {
        self.headers.as_slice()
    }

    /// Lends the kept entries by rising place, one for each place at most.
    pub fn entries(&self) -> &[EntryFact]
        ensures list { result.now ≡ self.now.kept.entries }
        ensures rising { (hash : Hash) → IsLed hash self.now.kept → AllPairs IsBefore result.now }
    {
        self.entries.as_slice()
    }

    /// Takes a message. Its checks cost what `check_known` says, and each fact that it shows is looked up by halving the
    /// kept ones, twice where it is accepted. A message that shows nothing new and leaves the state isn't kept, and nothing
    /// of it is copied. Each fact of any other accepted message is copied, and a new one is put at its place, one step for
    /// each kept fact behind that place: none for the target of an advance; the message itself is moved in, and a header that
    /// becomes the state is hashed once more. At a fork the line of each note is read again, and all strings hashed for the
    /// messages of the notes and for this one are made, held at once, and hashed. Before all this it walks over the message's
    /// lists of digests, to say that these have 32 octets; `take_line`, which read them, doesn't.
    ///
    /// Its only error is want of memory; then nothing changed.
    pub fn take(&mut self, alloc: Global, message: Message) -> Result<Taken, AllocError>
        requires { IsLed (H.digest self.old.hash) self.old.kept }
        ensures taken { IfOk result (λ taken. (known : Known) → Knows self.old.kept known → IsTakenAs (H.digest self.old.hash) known message taken) }
        ensures keeps { IfOk result (λ taken. (known : Known) → Knows self.old.kept known → Knows self.new.kept (known_behind known message taken)) }
        ensures left { OnErr result (self.new ≡ self.old) }
        ensures led { IsLed (H.digest self.new.hash) self.new.kept }
        ensures hash { self.new.hash ≡ self.old.hash }
    {
        message_fits(&message);
        match self.judge(alloc, &message) {
            Ok(judged) => self.end_told(alloc, message, judged),
            Err(error) => {
                drop(message);
                Err(error)
            }
        }
    }

    /// Takes a line of a stream, without its LF: reads it, and takes the message that it says, which costs what `take` says
    /// but for the walk. It keeps no message: where `take` would, it keeps the place of the line, 24 octets, and the line has to
    /// live as long as the client. `None` for a line that is passed over. A line that says no message is refused. Its only error
    /// is want of memory; then nothing changed.
    pub fn take_line(&mut self, alloc: Global, line: &'l [u8]) -> Result<Option<Taken>, AllocError>
        requires { IsLed (H.digest self.old.hash) self.old.kept }
        ensures told { IfOk result (λ taken. (known : Known) → Knows self.old.kept known →
            (verdict : Verdict) × IsVerdict (H.digest self.old.hash) known line.now verdict × (taken ≡ taken_of verdict) × Knows self.new.kept (known_by known verdict)) }
        ensures left { OnErr result (self.new ≡ self.old) }
        ensures led { IsLed (H.digest self.new.hash) self.new.kept }
        ensures hash { self.new.hash ≡ self.old.hash }
    {
        let taking = self.take_line_out(alloc, line)?;
        let LineTaking { taken, accepted } = taking;
        drop(accepted);
        Ok(taken)
    }

    /// The same as `take_line`, with the accepted message, which is handed out.
    pub fn take_line_out(&mut self, alloc: Global, line: &'l [u8]) -> Result<LineTaking, AllocError>
        requires { IsLed (H.digest self.old.hash) self.old.kept }
        ensures told { IfOk result (λ taking. (known : Known) → Knows self.old.kept known →
            (verdict : Verdict) × IsVerdict (H.digest self.old.hash) known line.now verdict × (taking.taken ≡ taken_of verdict)
            × Knows self.new.kept (known_by known verdict) × (taking.accepted ≡ accepted_by verdict)) }
        ensures left { OnErr result (self.new ≡ self.old) }
        ensures led { IsLed (H.digest self.new.hash) self.new.kept }
        ensures hash { self.new.hash ≡ self.old.hash }
    {
        match read_line(alloc, line) {
            Ok(None) => Ok(LineTaking {
                taken: None,
                accepted: None,
            }),
            Ok(Some(message)) => self.take_said(alloc, line, message),
            Err(WireError::Syntax) => Ok(LineTaking {
                taken: Some(Taken::Refused {
                    fault: LineFault::Syntax,
                }),
                accepted: None,
            }),
            Err(WireError::Memory) => Err(AllocError),
        }
    }

    // Takes the message that a line says.
    fn take_said(
        &mut self,
        alloc: Global,
        line: &'l [u8],
        message: Message,
    ) -> Result<LineTaking, AllocError>
        requires led { IsLed (H.digest self.old.hash) self.old.kept }
        requires says { IsLine line.now (Some message) }
        ensures told { IfOk result (λ taking. (known : Known) → Knows self.old.kept known →
            (verdict : Verdict) × IsVerdict (H.digest self.old.hash) known line.now verdict × (taking.taken ≡ taken_of verdict)
            × Knows self.new.kept (known_by known verdict) × (taking.accepted ≡ accepted_by verdict)) }
        ensures left { OnErr result (self.new ≡ self.old) }
        ensures led { IsLed (H.digest self.new.hash) self.new.kept }
        ensures hash { self.new.hash ≡ self.old.hash }
    {
        let judged = match self.judge(alloc, &message) {
            Ok(judged) => judged,
            Err(error) => {
                drop(message);
                return Err(error);
            }
        };
        match self.end_said(line, judged) {
            Ok(taken) => Ok(handed_out(taken, message)),
            Err(error) => {
                drop(message);
                Err(error)
            }
        }
    }

    // Puts in what a message adds that was judged and handed in.
    fn end_told(
        &mut self,
        alloc: Global,
        message: Message,
        judged: Judged,
    ) -> Result<Taken, AllocError>
        requires led { IsLed (H.digest self.old.hash) self.old.kept }
        requires fits { IsMessage message }
        requires judged { (messages : List TheMessage) → AreOf self.old.kept.notes messages → IsJudged (H.digest self.old.hash) (known_of self.old.kept messages) message judged }
        ensures taken { IfOk result (λ taken. (messages : List TheMessage) → AreOf self.old.kept.notes messages → IsTakenAs (H.digest self.old.hash) (known_of self.old.kept messages) message taken) }
        ensures keeps { IfOk result (λ taken. (messages : List TheMessage) → AreOf self.old.kept.notes messages → Knows self.new.kept (known_behind (known_of self.old.kept messages) message taken)) }
        ensures left { OnErr result (self.new ≡ self.old) }
        ensures led { IsLed (H.digest self.new.hash) self.new.kept }
        ensures hash { self.new.hash ≡ self.old.hash }
    {
        let Judged { taken, copies } = judged;
        let Some(copies) = copies else {
            drop(message);
            return Ok(taken);
        };
        match self.put_told(alloc, message, copies) {
            Ok(()) => Ok(taken),
            Err(error) => {
                drop(taken);
                Err(error)
            }
        }
    }

    // Puts in what the message of a line adds that was judged.
    fn end_said(&mut self, line: &'l [u8], judged: Judged) -> Result<Taken, AllocError>
        requires led { IsLed (H.digest self.old.hash) self.old.kept }
        requires judged { (message : TheMessage) × IsLine line.now (Some message)
            × ((messages : List TheMessage) → AreOf self.old.kept.notes messages → IsJudged (H.digest self.old.hash) (known_of self.old.kept messages) message judged) }
        ensures taken { IfOk result (λ taken. (messages : List TheMessage) (message : TheMessage) → AreOf self.old.kept.notes messages → IsLine line.now (Some message) →
            IsTakenAs (H.digest self.old.hash) (known_of self.old.kept messages) message taken) }
        ensures keeps { IfOk result (λ taken. (messages : List TheMessage) (message : TheMessage) → AreOf self.old.kept.notes messages → IsLine line.now (Some message) →
            Knows self.new.kept (known_behind (known_of self.old.kept messages) message taken)) }
        ensures left { OnErr result (self.new ≡ self.old) }
        ensures led { IsLed (H.digest self.new.hash) self.new.kept }
        ensures hash { self.new.hash ≡ self.old.hash }
    {
        let Judged { taken, copies } = judged;
        let Some(copies) = copies else {
            return Ok(taken);
        };
        match self.put(Note::Line { line }, copies) {
            Ok(()) => Ok(taken),
            Err(error) => {
                drop(taken);
                Err(error)
            }
        }
    }
}

// The answer to a line of which this is the message, which is handed out where it is accepted.
fn handed_out(taken: Taken, message: Message) -> LineTaking
    ensures taken { result.taken ≡ Some taken }
    ensures accepted { result.accepted ≡ accepted_behind message taken }
{
    match taken {
        Taken::Accepted { shown } => LineTaking {
            taken: Some(Taken::Accepted { shown }),
            accepted: Some(message),
        },
        Taken::Refused { fault } => {
            drop(message);
            LineTaking {
                taken: Some(Taken::Refused { fault }),
                accepted: None,
            }
        }
        Taken::Forked { x, y } => {
            drop(message);
            LineTaking {
                taken: Some(Taken::Forked { x, y }),
                accepted: None,
            }
        }
    }
}

// What a message shows, as its line tells it.
fn shown_by(message: &Message) -> Shown
    ensures { result ≡ shown_of message.now }
{
    match message {
        Message::State { header } => Shown::State { id: header.id },
        Message::Dual { dual } => Shown::Dual {
            s: dual.source.id,
            t: dual.target.id,
        },
        Message::Advance { dual, .. } => Shown::Advance {
            s: dual.source.id,
            t: dual.target.id,
        },
        Message::Item { dual, index, .. } => Shown::Item {
            t: dual.source.id,
            i: *index,
        },
    }
}
