//! The data lines of a command that reads messages, one message after another.

ghost use Rattle.std.specs.Prelude.{◌≡◌, ℕ, IfOk, OnErr, true};
ghost use Rattle.dv_model.specs.Journals.{Mail as Message};
ghost use Rattle.dv_model.specs.Sessions.{reads_mail};
ghost use Rattle.dv_shelf.specs.Causes.{HasCauseOf};
ghost use Rattle.dv_view.specs.Taken.{HasTaken};
ghost use Rattle.dv_responses.specs.Damaged.{IsRead};
ghost use Rattle.dv_responses.specs.Depth.{IsShallow};
ghost use Rattle.dv_lookups.specs.Lookups.{KnowsCache, KnowsMessages, ReadsFor};

use crate::cache_file::CacheFile;
use crate::memory::in_memory;
use dv_chain::Chain;
use dv_model::{Command, List};
use dv_responses::{Responses, asked_by};
use dv_shelf::{Shelf, ShelfFault};
use dv_view::View;
use std::alloc::Global;

impl CacheFile {
    /// Reads the messages that a command reads, one after another by rising number, each as by
    /// `facts`, and adds the data lines of its answer (RFC 3501, sections 6.4.4 and 6.4.5). The
    /// answer has the UIDs of those whose files are missing or damaged. The facts of one message
    /// are held at a time, and each message file is read once at most. After an error what was read
    /// of the cache file stays, and some of the lines may have been added.
    pub fn read_for<S: Shelf, R: Responses>(
        &mut self,
        alloc: Global,
        shelf: &mut S,
        chain: &Chain,
        c: &Command,
        view: &View,
        lines: &mut R,
    ) -> Result<List<u32>, ShelfFault>
        requires shallow { IsShallow c.now }
        requires reads { reads_mail c.now ≡ true }
        // The lines and the damaged UIDs are those of the messages in their files, where the cache
        // file is true.
        ensures found { S.sees.tells → (mail : ℕ → Message) →
            KnowsMessages (S.sees.files shelf.old) chain.now self.old mail →
            IfOk result (IsRead R.with lines.old lines.new mail c.now view.now
            chain.now.live.mailbox) }
        // What was taken before is kept, also where memory or the disk failed.
        ensures replies { S.sees.tells →
            KnowsCache (S.sees.files shelf.old) chain.now self.old →
            OnErr result (HasTaken R.with lines.old lines.new) }
        // Nothing is changed. The cache file is as it was read, and isn't read again, or without
        // need. A message file is read at most for each row that the mailbox has, and none for one
        // that is found in the cache file.
        ensures looks { ReadsFor S.sees chain.now c.now view.now
            self.old self.new shelf.old shelf.new }
        // A fault of the disk has its cause.
        ensures cause { HasCauseOf ShelfFault.Failed
            (S.sees.fault_count shelf.old) (S.sees.fault_count shelf.new) result }
    {
        let asked = in_memory(asked_by(alloc, c))?;
        match c {
            Command::Fetch { by_uid, set, items } => {
                self.fetch_for(
                    alloc, shelf, chain, &asked, *by_uid, set, items, view, lines,
                )
            }
            Command::Search { by_uid, key } => {
                self.search_for(alloc, shelf, chain, &asked, *by_uid, key, view, lines)
            }
            // Nothing else reads messages.
            _ => Ok(List::new(alloc)),
        }
    }
}
