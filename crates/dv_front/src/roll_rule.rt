use crate::rule::SeatView;
use atomic_table::{Join, Play, Seat, Split, TableRule};
use std::collections::LinkedList;
use std::marker::{Brand, Model, PhantomData};

/// Which table it is. No value of it is made.
pub struct TableName {
    seat: Seat<u8, SeatView>,
}

impl Model for TableName {
    ghost use Rattle.atomic_table.specs.Seated.{TableId, table_id_coded};

    ghost Value = { TableId };

    ghost coded = { table_id_coded };

    ghost view = { λ t. t.seat.table_id };
}

/// The view of a seat. No value of it is made.
pub struct RollView {
    /// It isn't spent: no other view has taken it in.
    pub live: bool,
    /// It is the seat that appends.
    pub rolls: bool,
    /// The items that it knows.
    pub own: LinkedList<TableName>,
    /// What another seat knows, between a join and the load that follows.
    pub told: LinkedList<TableName>,
}

pub struct RollRule;

impl TableRule<u8, RollView, ()> for RollRule {
    ghost use Rattle.dv_front.specs.RollRule.{IsRoll};
    ghost use Rattle.dv_front.specs.RollSteps.{first_view};

    ghost holds = { λ _ s. IsRoll s.words s.views };

    ghost first = { λ _. first_view };
}

/// The table that is appended, for contracts alone: each call that appends picks it.
pub trait NamesTable {
    ghost use Rattle.atomic_table.specs.Seated.{TableId};

    ghost table: { TableId };
}

impl NamesTable for Brand {
    ghost use Rattle.dv_front.specs.Rolls.{no_table};

    ghost table = { no_table };
}

/// A store that appends a table.
pub struct Appends<J> {
    of: PhantomData<J>,
}

impl<J: NamesTable> Play<u8, RollView> for Appends<J> {
    ghost use Rattle.dv_front.specs.RollSteps.{Appended};

    ghost then = { Appended J.table };
}

/// A load that compares what was told with what is known.
pub struct ComparesItems;

impl Play<u8, RollView> for ComparesItems {
    ghost use Rattle.dv_front.specs.RollSteps.{ItemsCompared};

    ghost then = { ItemsCompared };
}

/// A load that adds what was told to what is known.
pub struct LearnsItems;

impl Play<u8, RollView> for LearnsItems {
    ghost use Rattle.dv_front.specs.RollSteps.{ItemsLearned};

    ghost then = { ItemsLearned };
}

/// A second view that knows as much, and a view that takes in another.
pub struct RollSharing;

impl Split<RollView> for RollSharing {
    ghost use Rattle.dv_front.specs.RollSteps.{leaf_of};

    ghost left = { λ v. v };

    ghost right = { leaf_of };
}

impl Join<RollView> for RollSharing {
    ghost use Rattle.dv_front.specs.RollSteps.{hearing, spent_view};

    ghost both = { hearing };

    ghost spent = { spent_view };
}
