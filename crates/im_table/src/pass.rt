use crate::view::View;
use atomic_table::Seat;
use std::marker::Model;

/// What a thread steps with. It has no octets: a clause sees which tip it is of, and its view.
///
/// # Thread safety
///
/// A pass has one owner, and each step takes it by `&mut`. It may go to another thread. The pass with the role of a
/// locked value lies under that value's lock; under the lock its role goes to the caller's pass by `Tip::join`, and
/// back by `Tip::split`.
///
/// # Invariants
///
/// What a view says of the words and of the other passes is the rule of the tip (`HoldsRule`): it holds between any two
/// steps of any threads. A pass that is dropped keeps its roles and its weight, so no other pass gets them again.
#[derive(Drop)]
pub struct Pass {
    pub(crate) seat: Seat<(), View>,
}

impl Model for Pass {
    ghost use Rattle.std.specs.Prelude.{◌≡◌, []};
    ghost use Rattle.im_table.specs.Known.{KnownPass};

    ghost Value = { KnownPass };

    ghost view = { λ p. record { table = p.seat.table_id; view = p.seat.me.0 } };

    ghost invariant = { λ p. p.seat.me.1 ≡ [] };
}
