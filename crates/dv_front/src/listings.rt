use crate::roll_rule::{RollRule, RollView};
use atomic_table::{Seat, Table};
use std::alloc::Global;
use std::marker::Model;
use std::sync::Arc;

/// A table of one word, the number of items.
pub(crate) type Count = Table<u8, RollView, (), RollRule, Global>;

/// The one end that appends to a list, which contracts alone see: the tables of all generations, in
/// their order.
#[derive(Drop)]
pub struct Roll {
    pub(crate) table: Arc<Count, Global>,
    pub(crate) seat: Seat<u8, RollView>,
    pub(crate) count: u64,
}

impl Model for Roll {
    ghost use Rattle.std.specs.Prelude.{◌≡◌, [], true, length};
    ghost use Rattle.std.specs.Arc.{arc_value};
    ghost use Rattle.dv_front.specs.Rolls.{ListingView};

    ghost Value = { ListingView };

    ghost view = { λ r. record {
      table = r.seat.table_id;
      items = r.seat.me.0.own;
    } };

    ghost invariant = { λ r.
        ((arc_value r.table).shared.table_id ≡ r.seat.table_id)
        × (r.seat.table_id.words ≡ 1)
        × (r.seat.me.1 ≡ [])
        × (r.seat.me.0.live ≡ true)
        × (r.seat.me.0.rolls ≡ true)
        × (r.seat.me.0.told ≡ r.seat.me.0.own)
        × (r.count ≡ length r.seat.me.0.own) };
}

/// An end that knows the first items of a roll.
#[derive(Drop)]
pub struct Leaf {
    pub(crate) table: Arc<Count, Global>,
    pub(crate) seat: Seat<u8, RollView>,
}

impl Model for Leaf {
    ghost use Rattle.std.specs.Prelude.{◌≡◌, [], true, false};
    ghost use Rattle.std.specs.Arc.{arc_value};
    ghost use Rattle.dv_front.specs.Rolls.{ListingView};

    ghost Value = { ListingView };

    ghost view = { λ l. record {
      table = l.seat.table_id;
      items = l.seat.me.0.own;
    } };

    ghost invariant = { λ l.
        ((arc_value l.table).shared.table_id ≡ l.seat.table_id)
        × (l.seat.table_id.words ≡ 1)
        × (l.seat.me.1 ≡ [])
        × (l.seat.me.0.live ≡ true)
        × (l.seat.me.0.rolls ≡ false)
        × (l.seat.me.0.told ≡ l.seat.me.0.own) };
}
