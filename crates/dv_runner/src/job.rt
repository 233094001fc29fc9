//! A session with its commands, and what it was answered.

ghost use Rattle.std.specs.Prelude.{◌≡◌, [], All, false};
ghost use Rattle.dv_keeper.specs.Sessions.{IsNewSession};
ghost use Rattle.dv_runner.specs.Works.{IsReady, work_of};
ghost use Rattle.dv_serving.specs.Servable.{IsServable};
ghost use Rattle.dv_texts.specs.Lines.{Lines};

use dv_member::Session;
use dv_model::{Bytes, Command, List};
use dv_naming::{Keeping, Tally};
use dv_texts::ReplyText;
use std::alloc::Global;
use std::marker::Model;

/// What a thread runs: a session with its commands, and the text of its replies. Contracts see the
/// session, the commands, its name with the text, and whether all commands were answered.
#[derive(Drop)]
pub struct Job<K: Keeping, L: Tally, M: Tally> {
    pub(crate) session: Session<K, L, M>,
    pub(crate) commands: List<Command>,
    pub(crate) replies: ReplyText,
    pub(crate) whole: bool,
}

impl<K: Keeping, L: Tally, M: Tally> Model for Job<K, L, M> {
    ghost use Rattle.std.specs.Coded.{codes};
    ghost use Rattle.dv_model.specs.contracts.types.Command as command_type;
    ghost use Rattle.dv_runner.specs.Works as works;

    ghost Value = { works.Work };

    ghost coded = { Prim.hlevel (codes, command_type.the_row.coded) };

    ghost view = { λ j. record {
      session = j.session;
      commands = j.commands;
      replies = j.replies;
      whole = j.whole;
    } };
}

impl<K: Keeping, L: Tally, M: Tally> Job<K, L, M> {
    /// The commands of a session that was just made, whose replies are told under this name.
    /// Nothing is answered yet. Takes no memory.
    pub fn new(
        alloc: Global,
        session: Session<K, L, M>,
        name: Bytes,
        commands: List<Command>,
    ) -> Job<K, L, M>
        requires new { IsNewSession K.start session.number session }
        requires servable { All IsServable commands }
        ensures is { (lines : Lines) → (lines.session ≡ name) → (lines.text ≡ [])
            → result ≡ work_of session commands lines false }
        ensures ready { IsReady K.start result }
    {
        Job {
            session,
            commands,
            replies: ReplyText::new(alloc, name),
            whole: false,
        }
    }

    /// Whether all commands were answered, so that memory never ran out.
    pub fn is_whole(&self) -> bool
        ensures { result ≡ self.now.whole }
    {
        self.whole
    }

    /// The text of the replies.
    pub fn replies(&self) -> &ReplyText
        ensures { result.now ≡ self.now.replies }
    {
        &self.replies
    }

    /// The session, to be handed in to its keeper, and the text of the replies.
    pub fn into_parts(self) -> (Session<K, L, M>, ReplyText)
        ensures { result ≡ (self.session, self.replies) }
    {
        let Job {
            session,
            replies,
            ..
        } = self;
        (session, replies)
    }
}
