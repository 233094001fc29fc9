ghost use Rattle.std.specs.Prelude.{◌≡◌, ◌≤◌, false, true, length, IfOk, Some};
ghost use mathlib.Core.List.{IsPrefix};
ghost use Rattle.dv_front.specs.Rolls.{table_at};
ghost use Rattle.dv_generations.specs.Feeds.{IsShown};

use crate::ends::pass_at;
use crate::generations::Generations;
use dv_front::{Leaf, Pass, extend, leaf, show};
use dv_model::NoMemory;
use dv_naming::Keeping;

impl<K: Keeping> Generations<K> {
    /// A leaf of the roll that names the tables of all generations. After `NoMemory` they are as
    /// before.
    pub fn leaf(&mut self) -> Result<Leaf, NoMemory>
        ensures leaf { IfOk result (λ l.
            (l.table ≡ K.roll) × (length l.items ≡ length self.old.parts)) }
        ensures same { self.new ≡ self.old }
    {
        leaf(&mut self.roll)
    }

    /// Shows a pass of a generation, which its leaf names, all notes of it, and makes the leaf's
    /// list the whole one. What the pass has seen is then a prefix of all that was published, and
    /// the whole of it where the generation is the newest.
    pub fn show(&mut self, number: u64, pass: &mut Pass, leaf: &mut Leaf)
        requires roll { leaf.old.table ≡ K.roll }
        requires table { table_at leaf.old.items number ≡ Some pass.old.table }
        ensures shown { IsShown K.start K.count self.old number pass.new }
        ensures begins { IsPrefix pass.old.notes pass.new.notes }
        ensures pass { pass.new
            ≡ record pass.old { notes = pass.new.notes; sealed = pass.new.sealed } }
        ensures table { table_at leaf.new.items number ≡ Some pass.new.table }
        ensures leaf { IsPrefix leaf.old.items leaf.new.items × (leaf.new.table ≡ K.roll) }
        ensures all { length leaf.new.items ≡ length self.old.parts }
        ensures same { self.new ≡ self.old }
    {
        extend(&mut self.roll, leaf);
        if number <= self.older.len() as u64 {
            let ends = &mut self.older[number as usize - 1];
            show(&mut ends.pen, pass);
        } else {
            show(&mut self.newest.pen, pass);
        }
    }

    /// A pass of a generation by its number, which has taken nothing and knows all notes of it; the
    /// leaf's list is made the whole one. After `NoMemory` the generations are as before.
    pub fn pass_of(&mut self, number: u64, leaf: &mut Leaf) -> Result<Pass, NoMemory>
        requires roll { leaf.old.table ≡ K.roll }
        requires number { (1 ≤ number) × (number ≤ length self.old.parts) }
        ensures shown { IfOk result (λ p. IsShown K.start K.count self.old number p) }
        ensures fresh { IfOk result (λ p. (p.taken ≡ 0) × (p.loads ≡ 0)) }
        ensures table { IfOk result (λ p. table_at leaf.new.items number ≡ Some p.table) }
        ensures leaf { IsPrefix leaf.old.items leaf.new.items × (leaf.new.table ≡ K.roll) }
        ensures all { length leaf.new.items ≡ length self.old.parts }
        ensures same { self.new ≡ self.old }
    {
        extend(&mut self.roll, leaf);
        if number <= self.older.len() as u64 {
            pass_at(&mut self.older[number as usize - 1])
        } else {
            pass_at(&mut self.newest)
        }
    }

    /// The pass that is kept for who publishes, of the newest generation: it knows all notes of it.
    /// The leaf's list is made the whole one. Takes no memory.
    pub fn newest(&mut self, leaf: &mut Leaf) -> Pass
        requires roll { leaf.old.table ≡ K.roll }
        requires kept { self.old.pass ≡ true }
        ensures shown { IsShown K.start K.count self.old (length self.old.parts) result }
        ensures table { table_at leaf.new.items (length self.old.parts) ≡ Some result.table }
        ensures leaf { IsPrefix leaf.old.items leaf.new.items × (leaf.new.table ≡ K.roll) }
        ensures all { length leaf.new.items ≡ length self.old.parts }
        ensures given { self.new ≡ record self.old { pass = false } }
    {
        extend(&mut self.roll, leaf);
        let mut pass = self.pass.take().unwrap();
        show(&mut self.newest.pen, &mut pass);
        pass
    }
}
