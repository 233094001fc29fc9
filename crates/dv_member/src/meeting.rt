ghost use Rattle.std.specs.Prelude.{◌≡◌, ◌↔◌, ◌≢◌, ◌<◌, false, length};
ghost use mathlib.Core.List.{IsPrefix};
ghost use Rattle.dv_member.specs.Calls.{IsToldAll};
ghost use Rattle.dv_member.specs.Members.{notes_of};
ghost use Rattle.dv_member.specs.declared.meeting.Met.TheVariants as met;

use crate::session::Session;
use dv_front::{agree, agree_leaves};
use dv_naming::{Keeping, Tally};

/// How what two sessions have seen compares.
#[derive(Clone, Copy, PartialEq, Eq, Debug)]
pub enum Met {
    Equal,
    FirstShorter,
    SecondShorter,
    /// They are in different generations.
    Apart,
}

/// Compares what two sessions have seen: in one generation the one's notes begin with the other's.
/// Where both were told all of one place by whole steps, their views are equal. Takes no memory and
/// no lock.
pub fn meet<K: Keeping, L: Tally, M: Tally>(
    a: &mut Session<K, L, M>,
    b: &mut Session<K, L, M>,
) -> Met
    requires fresh { (a.old.spent ≡ false) × (b.old.spent ≡ false) }
    ensures apart { (result ≡ met.Apart)
        ↔ (a.old.front.generation.number ≢ b.old.front.generation.number) }
    ensures equal { result ≡ met.Equal → notes_of a.old ≡ notes_of b.old }
    ensures first { result ≡ met.FirstShorter →
        IsPrefix (notes_of a.old) (notes_of b.old) × (a.old.seen < b.old.seen) }
    ensures second { result ≡ met.SecondShorter →
        IsPrefix (notes_of b.old) (notes_of a.old) × (b.old.seen < a.old.seen) }
    ensures views { result ≡ met.Equal → IsToldAll a.old → IsToldAll b.old
        → a.old.follower.state.view ≡ b.old.follower.state.view }
    ensures same { (a.new ≡ a.old) × (b.new ≡ b.old) }
{
    if a.reader.generation != b.reader.generation {
        return Met::Apart;
    }
    agree_leaves(&mut a.reader.leaf, &mut b.reader.leaf);
    agree(&mut a.reader.pass, &mut b.reader.pass);
    if a.mirror.seen < b.mirror.seen {
        Met::FirstShorter
    } else if b.mirror.seen < a.mirror.seen {
        Met::SecondShorter
    } else {
        Met::Equal
    }
}
