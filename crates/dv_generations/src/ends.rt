ghost use Rattle.std.specs.Prelude.{◌≡◌, IfOk};
ghost use Rattle.dv_front.specs.Ends.{new_pass, shown};
ghost use Rattle.dv_front.specs.Notes.{AreGood};

use dv_front::{Pass, Pen, show, split};
use dv_model::NoMemory;
use dv_naming::Keeping;
use std::marker::{Model, PhantomData};

/// The pen of a table, and a pass that has taken nothing, of which others are split.
#[derive(Drop)]
pub(crate) struct Ends {
    pub(crate) pen: Pen,
    pub(crate) pass: Pass,
}

/// A table that is ready for the generation behind all that was published.
#[derive(Drop)]
pub struct Next<K: Keeping> {
    pub(crate) ends: Ends,
    /// A pass of it for who publishes.
    pub(crate) spare: Pass,
    pub(crate) of: PhantomData<K>,
}

impl<K: Keeping> Model for Next<K> {
    ghost use Rattle.std.specs.Prelude.{◌≡◌};
    ghost use Rattle.dv_generations.specs.Feeds.{NextView, origin_of};

    ghost Value = { NextView };

    ghost use Rattle.dv_generations.specs.Linked.{IsNew};

    ghost view = { λ n. record {
      base = n.ends.pen.generation.base;
      number = n.ends.pen.generation.number;
      room = n.ends.pen.generation.room;
    } };

    ghost invariant = { λ n.
        IsNew (origin_of K.start) K.count n.ends × (n.spare.table ≡ n.ends.pen.table) };
}

/// A pass of a table that has taken nothing, and knows all that its pen published.
pub(crate) fn pass_at(ends: &mut Ends) -> Result<Pass, NoMemory>
    requires { ends.old.pass ≡ new_pass ends.old.pen.table ends.old.pen.generation }
    ensures pass { IfOk result (λ p.
        (p ≡ shown ends.old.pen ends.old.pass) × AreGood p.generation p.notes) }
    ensures ends { ends.new ≡ ends.old }
{
    let mut pass = split(&mut ends.pass)?;
    show(&mut ends.pen, &mut pass);
    Ok(pass)
}
