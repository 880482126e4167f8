// What becomes of a message by what the client knows, and what of it is kept.
ghost use Rattle.std.specs.Prelude.{◌≡◌, ◌<◌, ◌∷◌, ◌++◌, [], List, IsTrue, IsFalse, IfOk, OnOk, OnErr};
ghost use Rattle.im_mtree.specs.Checks.{first_fail};
ghost use Rattle.im_pairs.specs.Pairs.{IsPair};
ghost use Rattle.im_hashed.specs.Messages.{strings_of};
ghost use Rattle.im_wire.specs.Fits.{IsMessage};
ghost use Rattle.im_wire.specs.declared.messages.Message.{Message as TheMessage};
ghost use Rattle.im_client.specs.LineChecks.{line_checks};
ghost use Rattle.im_facts.specs.Accepted.{Passes};
ghost use Rattle.im_facts.specs.Facts.{with_message, Agrees, Differs, IsRising};
ghost use Rattle.im_facts.specs.Copies.{AreCopies};
ghost use Rattle.im_facts.specs.Judging.{AreNews, IsJudged};
ghost use Rattle.im_facts.specs.Keeping.{kept_with, known_of, AreOf, IsLed, Knows};
ghost use Rattle.im_facts.specs.News.{is_old};

use crate::agree::{entries_agree, headers_agree};
use crate::clients::{FactClient, shown_by};
use crate::copies::{Copies, copies_of, make_room, put_entries, put_headers, put_note};
use crate::judged::Judged;
use crate::news::{knows_entries, knows_headers, leaves};
use crate::noted::hashed;
use crate::notes::Note;
use crate::states::{follow, header_of};
use crate::taken::Taken;
use im_client::checks::{KnownHeader, check_known};
use im_client::faults::LineFault;
use im_digest::Hash32;
use im_hashed::pairs::{Pair, pair_of};
use im_wire::messages::Message;
use std::alloc::{AllocError, Global};

impl<'h, 'l, H: Hash32> FactClient<'h, 'l, H> {
    // What becomes of a message, and copies of what it adds.
    pub(super) fn judge(&self, alloc: Global, message: &Message) -> Result<Judged, AllocError>
        requires led { IsLed (H.digest self.now.hash) self.now.kept }
        requires fits { IsMessage message.now }
        ensures { IfOk result (λ judged. (messages : List TheMessage) → AreOf self.now.kept.notes messages → IsJudged (H.digest self.now.hash) (known_of self.now.kept messages) message.now judged) }
    {
        if let Err(fault) = self.check(message) {
            return Ok(Judged {
                taken: Taken::Refused { fault },
                copies: None,
            });
        }
        if self.agrees(message) {
            let shown = shown_by(message);
            let copies = self.news(alloc, message)?;
            return Ok(Judged {
                taken: Taken::Accepted { shown },
                copies,
            });
        }
        let pair = self.pair_with(alloc, message)?;
        let Pair { x, y } = pair;
        Ok(Judged {
            taken: Taken::Forked { x, y },
            copies: None,
        })
    }

    // Lends its hash function.
    pub(super) fn hash(&self) -> &'h H
        ensures { result.now ≡ self.now.hash }
    {
        self.hash
    }

    // Lends its notes.
    pub(super) fn notes(&self) -> &[Note<'l>]
        ensures { result.now ≡ self.now.kept.notes }
    {
        self.notes.as_slice()
    }

    // Whether a message passes every check under the kept state.
    pub(super) fn check(&self, message: &Message) -> Result<(), LineFault>
        ensures { result ≡ first_fail (line_checks (H.digest self.now.hash) self.now.kept.state message.now) }
    {
        match &self.state {
            Some(state) => {
                let header = &state.header;
                let alh = state.alh;
                check_known(self.hash, Some(KnownHeader { header, alh }), message)
            }
            None => check_known(self.hash, None, message),
        }
    }

    // Whether no fact of a message is unlike a kept one. It looks up each fact that the message shows.
    pub(super) fn agrees(&self, message: &Message) -> bool
        requires { IsRising (known_of self.now.kept []) }
        ensures yes { IsTrue result → (messages : List TheMessage) → Agrees (known_of self.now.kept messages) message.now }
        ensures no { IsFalse result → (messages : List TheMessage) → Differs (known_of self.now.kept messages) message.now }
    {
        headers_agree(self.headers(), message) && entries_agree(self.entries(), message)
    }

    // Whether a message leaves the state and shows nothing new. It looks up each fact that the message shows.
    pub(super) fn is_old(&self, message: &Message) -> bool
        requires { IsRising (known_of self.now.kept []) }
        ensures { result ≡ is_old (known_of self.now.kept []) message.now }
    {
        leaves(header_of(&self.state), message)
            && knows_headers(self.headers(), message)
            && knows_entries(self.entries(), message)
    }

    // Copies of what an accepted message adds, and none where it is old.
    pub(super) fn news(
        &self,
        alloc: Global,
        message: &Message,
    ) -> Result<Option<Copies>, AllocError>
        requires { IsRising (known_of self.now.kept []) }
        ensures { IfOk result (AreNews (known_of self.now.kept []) message.now) }
    {
        if self.is_old(message) {
            return Ok(None);
        }
        let copies = copies_of(alloc, self.state(), message)?;
        Ok(Some(copies))
    }

    // Puts in what a message adds that was handed in, and keeps the message.
    pub(super) fn put_told(
        &mut self,
        alloc: Global,
        message: Message,
        copies: Copies,
    ) -> Result<(), AllocError>
        requires { IsRising (known_of self.old.kept []) }
        ensures ok { OnOk result ((messages : List TheMessage) → AreOf self.old.kept.notes messages → AreCopies self.old.kept.state message copies →
            Knows self.new.kept (with_message (known_of self.old.kept messages) message)) }
        ensures left { OnErr result (self.new ≡ self.old) }
        ensures hash { self.new.hash ≡ self.old.hash }
    {
        match Box::new(alloc, message) {
            Ok(message) => self.put(Note::Told { message }, copies),
            Err(failed) => {
                drop(failed);
                drop(copies);
                Err(AllocError)
            }
        }
    }

    // Puts in what a message adds, and a note of it: all memory is taken first.
    pub(super) fn put(&mut self, note: Note<'l>, copies: Copies) -> Result<(), AllocError>
        requires { IsRising (known_of self.old.kept []) }
        ensures ok { OnOk result (self.new.kept ≡ kept_with self.old.kept note.entry copies) }
        ensures left { OnErr result (self.new ≡ self.old) }
        ensures hash { self.new.hash ≡ self.old.hash }
    {
        let shown = copies.headers.len();
        let room = make_room(&mut self.headers, &mut self.entries, &mut self.notes, shown);
        if let Err(error) = room {
            drop(note);
            drop(copies);
            return Err(error);
        }
        let Copies {
            state,
            headers,
            entry,
        } = copies;
        follow(self.hash, &mut self.state, state);
        put_headers(&mut self.headers, headers);
        put_entries(&mut self.entries, entry);
        put_note(&mut self.notes, note);
        Ok(())
    }

    // Two unequal strings of one digest among those hashed for the messages of its notes and for this one.
    pub(super) fn pair_with(&self, alloc: Global, message: &Message) -> Result<Pair, AllocError>
        requires led { IsLed (H.digest self.now.hash) self.now.kept }
        requires fits { IsMessage message.now }
        requires passes { Passes (H.digest self.now.hash) (known_of self.now.kept []) message.now }
        requires differs { (messages : List TheMessage) → Differs (known_of self.now.kept messages) message.now }
        ensures { IfOk result (λ pair. (messages : List TheMessage) → AreOf self.now.kept.notes messages →
            IsPair (H.digest self.now.hash) pair.x pair.y (strings_of (H.digest self.now.hash) (messages ++ message.now ∷ []))) }
    {
        let function = self.hash();
        let strings = hashed(alloc, function, self.notes(), message)?;
        pair_of(alloc, function, strings.as_slice())
    }
}
