ghost use Rattle.std.specs.Prelude.{◌≡◌, IfOk, None, OnOk};
ghost use Rattle.dv_model.specs.Spelling.{IsRecord};
ghost use Rattle.dv_responses.specs.Depth.{IsShallow};
ghost use Rattle.dv_answer.specs.Following.{IsAbreast, Leads};
ghost use Rattle.dv_answer.specs.Refusing.{own_refusal};

use dv_answer::Session;
use dv_apply::Live;
use dv_commands::{behind, parse_append, parse_command};
use dv_model::{Bytes, Command, List, Mark, NoMemory, Record};
use dv_records::decode;
use dv_responses::{asked_by, facts_from, is_shallow, meet};
use dv_script::{replies_text, reply_text};
use dv_search::Mail;
use dv_touched::Touched;
use std::alloc::Global;

/// What other sessions write, the command that comes then, what it writes itself, the end of the
/// log behind all of these, and the lines that answer the command.
pub struct Turn {
    pub others: &'static [&'static [u8]],
    pub command: &'static [u8],
    pub own: &'static [&'static [u8]],
    pub end: u32,
    pub says: &'static [u8],
}

// The record that these bytes are. What isn't one counts as want of memory, which no test expects,
// and so does all else that can't be here.
fn record_of(alloc: Global, bytes: &[u8]) -> Result<Record, NoMemory>
    ensures { IfOk result IsRecord }
{
    match decode(alloc, bytes, 0) {
        Ok((record, _)) => Ok(record),
        Err(_) => Err(NoMemory),
    }
}

fn parsed(alloc: Global, text: &[u8]) -> Result<Command, NoMemory> {
    match parse_command(alloc, text) {
        Ok(command) => Ok(command),
        Err(_) => Err(NoMemory),
    }
}

// The command of a line. An APPEND has no message here, since no answer depends on it.
fn command_of(alloc: Global, text: &[u8]) -> Result<Command, NoMemory> {
    let Some(append) = behind(text, b"APPEND ") else {
        return parsed(alloc, text);
    };
    match parse_append(alloc, append) {
        Ok(((flags, keywords), _)) => Ok(Command::Append {
            flags,
            keywords,
            message: Bytes::new(alloc),
        }),
        Err(_) => Err(NoMemory),
    }
}

// Applies a record, and gives the UIDs that it touches.
fn apply(alloc: Global, live: &mut Live, bytes: &[u8]) -> Result<Touched, NoMemory>
    ensures { IfOk result (Leads live.old.mailbox live.new.mailbox) }
{
    let record = record_of(alloc, bytes)?;
    let mut touched = Touched::empty(alloc);
    // A UIDNEXT is known of a valid mailbox alone.
    let _before = live.next_uid();
    match live.apply_touched(&record, &mut touched) {
        Ok(()) => {
            let _behind = live.next_uid();
            Ok(touched)
        }
        Err(_) => Err(NoMemory),
    }
}

// What the command asks of messages: that of UID 1 is held, unless it has no bytes, and others are
// damaged.
fn facts_of(alloc: Global, c: &Command, live: &Live, message: &[u8]) -> Result<Mail, NoMemory>
    requires { IsShallow c.now }
{
    let mut mail = Mail::new(alloc);
    if message.is_empty() || live.position(1).is_none() {
        return Ok(mail);
    }
    let asked = asked_by(alloc, c)?;
    let message = Bytes::from_slice(alloc, message)?;
    mail.push(facts_from(alloc, &asked, 1, message)?)?;
    Ok(mail)
}

// A session beside the live mailbox that it follows.
#[derive(Drop)]
struct Follower {
    live: Live,
    session: Session,
}

impl Follower {
    // One that hasn't selected the mailbox, whose first record gets the modification sequence 3.
    fn new(alloc: Global) -> Follower
        ensures { IsAbreast result.live.mailbox result.session }
    {
        let mut live = Live::empty(alloc, 1000);
        live.raise(2);
        Follower {
            live,
            session: Session::new(alloc),
        }
    }

    // A record is applied, and the session told of the UIDs that it touches.
    fn write(&mut self, alloc: Global, bytes: &[u8]) -> Result<(), NoMemory>
        requires { IsAbreast self.old.live.mailbox self.old.session }
        ensures abreast { OnOk result (IsAbreast self.new.live.mailbox self.new.session) }
        ensures state { self.new.session.state ≡ self.old.session.state }
    {
        let touched = apply(alloc, &mut self.live, bytes)?;
        self.session.touch(&touched)?;
        Ok(())
    }

    fn write_all(&mut self, alloc: Global, records: &[&[u8]]) -> Result<(), NoMemory>
        requires { IsAbreast self.old.live.mailbox self.old.session }
        ensures abreast { OnOk result (IsAbreast self.new.live.mailbox self.new.session) }
        ensures state { OnOk result (self.new.session.state ≡ self.old.session.state) }
    {
        for bytes in records {
            self.write(alloc, bytes)?;
        }
        Ok(())
    }

    // The lines that answer a command that isn't refused.
    fn reply(
        &mut self,
        alloc: Global,
        c: &Command,
        turn: &Turn,
        message: &[u8],
    ) -> Result<Bytes, NoMemory>
        requires shallow { IsShallow c.now }
        requires allowed { own_refusal self.old.session.state c.now ≡ None }
        requires abreast { IsAbreast self.old.live.mailbox self.old.session }
        ensures { OnOk result (IsAbreast self.new.live.mailbox self.new.session) }
    {
        let met = meet(alloc, c, self.session.view(), &self.live)?;
        self.write_all(alloc, turn.own)?;
        let facts = facts_of(alloc, c, &self.live, message)?;
        let mark = Mark {
            file_seq: 1,
            offset: turn.end,
        };
        let mut lines = List::new(alloc);
        self.session
            .answer(c, &self.live, &facts, met, mark, 0, &mut lines)?;
        let text = replies_text(alloc, b"b", &lines)?;
        Ok(text)
    }

    // The lines that answer a command.
    fn answer(
        &mut self,
        alloc: Global,
        c: &Command,
        turn: &Turn,
        message: &[u8],
    ) -> Result<Bytes, NoMemory>
        requires { IsAbreast self.old.live.mailbox self.old.session }
        ensures { OnOk result (IsAbreast self.new.live.mailbox self.new.session) }
    {
        if !is_shallow(c) {
            return Err(NoMemory);
        }
        match self.session.refuse(c) {
            Some(line) => reply_text(alloc, b"b", &line),
            None => self.reply(alloc, c, turn, message),
        }
    }

    fn turn(&mut self, alloc: Global, turn: &Turn, message: &[u8]) -> Result<Bytes, NoMemory>
        requires { IsAbreast self.old.live.mailbox self.old.session }
        ensures { OnOk result (IsAbreast self.new.live.mailbox self.new.session) }
    {
        self.write_all(alloc, turn.others)?;
        let c = command_of(alloc, turn.command)?;
        self.answer(alloc, &c, turn, message)
    }
}

/// The first turn that is answered in another way, counted from 0. The message of UID 1 has these
/// bytes, and where there are none its file is damaged.
pub fn first_other(
    alloc: Global,
    turns: &[Turn],
    message: &[u8],
) -> Result<Option<usize>, NoMemory> {
    let mut follower = Follower::new(alloc);
    for (at, turn) in turns.iter().enumerate() {
        let text = follower.turn(alloc, turn, message)?;
        if text.as_slice() != turn.says {
            return Ok(Some(at));
        }
    }
    Ok(None)
}
