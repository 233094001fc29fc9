//! What is told of a kept search.

ghost use Rattle.std.specs.Prelude.{◌≡◌, [], IfOk, OnOk, false, true, if◌then◌else◌};
ghost use Rattle.dv_live.specs.Laws.{Became, IsOf};
ghost use Rattle.dv_watching.specs.Texts.{found_in, watch_text};

use dv_apply::Live;
use dv_live::{Saved, keep_up};
use dv_model::{Bytes, List, NoMemory};
use dv_script::put_numbers;
use dv_touched::Touched;
use std::alloc::Global;

/// The line that tells these UIDs. `NoMemory` is the only error.
pub fn watch_text(alloc: Global, uids: &[u32]) -> Result<Bytes, NoMemory>
    ensures { IfOk result (λ text. text ≡ watch_text uids.now) }
{
    let mut text = List::from_slice(alloc, b"WATCH")?;
    put_numbers(&mut text, b" ", uids)?;
    text.push(b'\n')?;
    Ok(text)
}

/// What is told behind a line: where that wrote a group, the search follows it, and its result is
/// told. After `NoMemory`, which is the only error, the search is as before.
pub fn told_behind(
    alloc: Global,
    saved: &mut Saved,
    live: &Live,
    wrote: bool,
    changed: &Touched,
) -> Result<Bytes, NoMemory>
    requires { wrote ≡ true → Became saved.old live.now.mailbox changed.now }
    ensures key { saved.new.key ≡ saved.old.key }
    ensures kept { wrote ≡ true → OnOk result (IsOf saved.new live.now.mailbox) }
    ensures stays { wrote ≡ false → saved.new ≡ saved.old }
    ensures text { IfOk result (λ text. text ≡
        (if wrote then watch_text (found_in saved.old.key live.now.mailbox) else [])) }
{
    if !wrote {
        return Ok(Bytes::new(alloc));
    }
    keep_up(alloc, saved, live, changed)?;
    watch_text(alloc, saved.uids().as_slice())
}
