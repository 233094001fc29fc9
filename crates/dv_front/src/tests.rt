ghost use Rattle.std.specs.Prelude.{◌≡◌, ◌≤◌, IfOk};
ghost use Rattle.dv_front.specs.Ends.{new_pass, new_pen};

use super::*;
use dv_model::{List, Mailbox, Mark, NoMemory};
use std::alloc::Global;
use std::test::*;

// The ends of a first generation with so many words, of the log of a mailbox without messages.
fn first_ends(alloc: Global, words: u32) -> Result<(Pen, Pass), NoMemory>
    requires { 1 ≤ words }
    ensures pen { IfOk result (λ ends. ends.0 ≡ new_pen ends.0.table ends.0.generation) }
    ensures pass { IfOk result (λ ends. ends.1 ≡ new_pass ends.0.table ends.0.generation) }
    ensures room { IfOk result (λ ends.
        (ends.0.generation.room ≡ words) × (ends.0.generation.number ≡ 1)) }
{
    let mailbox = Mailbox {
        uid_validity: 1,
        next_uid: 1,
        rows: List::new(alloc),
        keywords: List::new(alloc),
        extensions: List::new(alloc),
        current: None,
        highest: 1,
    };
    let mark = Mark {
        file_seq: 1,
        offset: 40,
    };
    new_front(alloc, words, &mailbox, mark, 0)
}

#[test]
fn seal_is_seen_behind_no_words(rt: HostRuntime) -> Result<(), Fail> {
    let alloc = rt.alloc();
    let (mut pen, mut pass) = first_ends(alloc, 4)?;
    assert_eq!(rt; words_left(&pen), 4);
    let front = load_front(&mut pass);
    assert_eq!(rt; (front.words, front.sealed), (0, false));
    seal(&mut pen);
    let front = load_front(&mut pass);
    assert_eq!(rt; (front.words, front.sealed), (0, true));
    Ok(())
}

#[test]
fn words_that_are_put_are_not_published(rt: HostRuntime) -> Result<(), Fail> {
    let alloc = rt.alloc();
    let (mut pen, mut pass) = first_ends(alloc, 4)?;
    put_word(&mut pen, 1, 7);
    put_word(&mut pen, 2, 4294967295);
    assert_eq!(rt; (words_put(&pen), words_left(&pen)), (2, 2));
    let front = load_front(&mut pass);
    assert_eq!(rt; (front.words, front.sealed), (0, false));
    Ok(())
}

#[test]
fn passes_of_one_table_are_joined(rt: HostRuntime) -> Result<(), Fail> {
    let alloc = rt.alloc();
    let (mut pen, mut pass) = first_ends(alloc, 1)?;
    let mut second = split(&mut pass)?;
    agree(&mut pass, &mut second);
    show(&mut pen, &mut pass);
    skip_to(&mut pass, 0);
    join(&mut pass, second);
    assert_eq!(rt; words_taken(&pass), 0);
    Ok(())
}

#[test]
fn next_generation_has_words_of_its_own(rt: HostRuntime) -> Result<(), Fail> {
    let alloc = rt.alloc();
    let (mut pen, _) = first_ends(alloc, 4)?;
    put_word(&mut pen, 1, 7);
    let (next, mut pass) = next_front(alloc, &pen, 3)?;
    assert_eq!(rt; (words_put(&next), words_left(&next)), (0, 3));
    assert_eq!(rt; (words_put(&pen), words_left(&pen)), (1, 3));
    let front = load_front(&mut pass);
    assert_eq!(rt; (front.words, front.sealed), (0, false));
    Ok(())
}

#[test]
fn leaf_follows_its_roll(rt: HostRuntime) -> Result<(), Fail> {
    let alloc = rt.alloc();
    let (pen, pass) = first_ends(alloc, 1)?;
    let (_, next) = next_front(alloc, &pen, 1)?;
    let mut roll = new_roll(alloc)?;
    let mut first = leaf(&mut roll)?;
    enter(&mut roll, &pass);
    enter(&mut roll, &next);
    let mut second = leaf(&mut roll)?;
    agree_leaves(&mut first, &mut second);
    extend(&mut roll, &mut first);
    Ok(())
}
