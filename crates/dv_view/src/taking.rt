//! Where the replies of an answer go.

ghost use Rattle.std.specs.Prelude.{◌≡◌, ◌++◌, ◌∷◌, [], ℕ, List as Listed, OnErr, OnOk, length};
ghost use Rattle.dv_model.specs.declared.types.Reply.{Reply as Said};
ghost use Rattle.dv_view.specs.Tells.{fetch_of};

use crate::copies::fetch_of;
use dv_keywords::Table;
use dv_model::{List, NoMemory, Reply, Shown};
use std::alloc::Global;
use std::mem;

/// What takes the replies of an answer, one after another: a list of them, or their text.
pub trait Replies {
    /// What it is with more replies.
    ghost with: { Self → Listed Said → Self };

    /// How long it is.
    ghost size: { Self → ℕ };

    /// Makes room for so many replies with so many bytes of messages in all, as far as it needs
    /// any. `NoMemory` is the only error. Memory and time alone go by it.
    fn expect(&mut self, replies: usize, bytes: usize) -> Result<(), NoMemory>
        ensures { self.new ≡ self.old };

    /// Takes a reply. After `NoMemory`, which is the only error, it is as before.
    fn take(&mut self, reply: Reply) -> Result<(), NoMemory>
        ensures ok { OnOk result (self.new ≡ with self.old (reply ∷ [])) }
        ensures err { OnErr result (self.new ≡ self.old) };

    /// Takes the FETCH with UID and flags of a row of this number, whose keywords have names in
    /// this table (RFC 3501, section 7.4.2). After `NoMemory`, which is the only error, it is as
    /// before.
    fn take_flags(
        &mut self,
        alloc: Global,
        names: &Table,
        number: u32,
        s: &Shown,
    ) -> Result<(), NoMemory>
        ensures ok { OnOk result
            (self.new ≡ with self.old (fetch_of names.now.names (number, s.now) ∷ [])) }
        ensures err { OnErr result (self.new ≡ self.old) };

    /// How long it is, which `cut` goes by.
    fn length(&self) -> usize
        ensures { result ≡ size self.now };

    /// Takes back the replies that came since it was so long. It takes no memory.
    fn cut(&mut self, alloc: Global, length: usize)
        ensures { (x : Self) (told : Listed Said)
            → self.old ≡ with x told → length ≡ size x → self.new ≡ x };

    /// No replies leave it as it is.
    ghost none: { (x : Self) → with x [] ≡ x };

    /// Replies behind others are one list of replies.
    ghost more: { (x : Self) (a b : Listed Said) → with (with x a) b ≡ with x (a ++ b) };
}

impl Replies for List<Reply> {
    ghost use Rattle.std.proofs.Common.{append_assoc, append-nil};

    ghost with = { λ replies more. replies ++ more };

    ghost size = { λ replies. length replies };

    ghost none = { λ x. append-nil x };

    ghost more = { λ x a b. append_assoc x a b };

    fn expect(&mut self, _replies: usize, _bytes: usize) -> Result<(), NoMemory> {
        Ok(())
    }

    fn take(&mut self, reply: Reply) -> Result<(), NoMemory> {
        self.push(reply)?;
        Ok(())
    }

    fn take_flags(
        &mut self,
        alloc: Global,
        names: &Table,
        number: u32,
        s: &Shown,
    ) -> Result<(), NoMemory> {
        self.push(fetch_of(alloc, names, number, s)?)?;
        Ok(())
    }

    fn length(&self) -> usize {
        self.len()
    }

    fn cut(&mut self, alloc: Global, length: usize) {
        let mut replies = mem::replace(self, List::new(alloc)).into_vec();
        replies.truncate(length);
        *self = List::from_vec(replies);
    }
}
