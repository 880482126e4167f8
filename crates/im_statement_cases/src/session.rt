//! The history that a session's lines are answered over, with the index of its keys.

use crate::wrong::Wrong;
use im_book::laws::placed_is_a_history;
use im_index::index::Index;
use im_index::snapshot::Snapshot;
use im_model::transactions::Transaction;
use im_plain::versions::place_refusal;
use im_tx::prepared::Prepared;
use std::alloc::{AllocError, Global};
use std::marker::Model;

/// A history of which no transaction was placed over a tree, and the index of its keys. A clause sees the list of its
/// transactions.
#[derive(Drop)]
pub struct Session {
    transactions: Vec<Transaction>,
    index: Index,
}

impl Model for Session {
    ghost use Rattle.std.specs.Prelude.{List};
    ghost use Rattle.im_model.specs.declared.transactions.Transaction.{Transaction};
    ghost use Rattle.im_statement_cases.specs.Sessions.{IsSession};

    ghost Value = { List Transaction };

    ghost view = { λ s. s.transactions.items };

    ghost invariant = { λ s. IsSession s.transactions.items s.index };
}

impl Session {
    ghost use Rattle.std.specs.Prelude.{◌≡◌, ◌∷◌, ◌++◌, [], length, IfOk, OnOk};
    ghost use Rattle.im_model.specs.History.{IsHistory};
    ghost use Rattle.im_book.specs.Booked.{last_bl};
    ghost use Rattle.im_index.specs.Indexed.{IsSnapshotOf};

    /// No transaction. It takes no memory.
    pub fn new(alloc: Global) -> Self
        ensures { result ≡ [] }
    {
        Session {
            transactions: Vec::new(alloc),
            index: Index::new(alloc),
        }
    }

    /// The number of transactions.
    pub fn len(&self) -> u64
        ensures { result ≡ length self.now }
    {
        self.transactions.len() as u64
    }

    /// What stands after all transactions. Its only error is want of memory.
    pub fn view(&self, alloc: Global) -> Result<Snapshot, AllocError>
        ensures view { IfOk result (λ view. IsSnapshotOf view self.now) }
        ensures history { IsHistory self.now }
    {
        self.index.snapshot(alloc, self.index.taken())
    }

    /// Places what is asked for behind all transactions.
    ///
    /// # Errors
    ///
    /// `Refused` where a precondition doesn't hold, or there are as many transactions as there may be. `Memory` where memory
    /// runs out. Then nothing is placed.
    pub fn place(&mut self, alloc: Global, prepared: Prepared) -> Result<(), Wrong> {
        if place_refusal(alloc, &self.transactions, prepared.pres())?.is_some() {
            return Err(Wrong::Refused);
        }
        placed_is_a_history();
        let (entries, _) = prepared.into_parts();
        let tx = Transaction {
            ts: 0,
            entries,
            bl: 0,
        };
        self.push(alloc, tx)
    }

    // Adds one more transaction, or nothing where memory runs out.
    fn push(&mut self, alloc: Global, tx: Transaction) -> Result<(), Wrong>
        requires history { IsHistory (self.old ++ tx ∷ []) }
        requires tree { tx.bl ≡ 0 }
        ensures { OnOk result (self.new ≡ self.old ++ tx ∷ []) }
    {
        self.transactions.reserve(1)?;
        self.index.take(alloc, &tx)?;
        self.transactions.push_reserved(tx);
        Ok(())
    }
}
