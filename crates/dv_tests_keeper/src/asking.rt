//! What is asked of sessions is done.

use crate::calls::{data_lines, is_untold, select_seen, tell_seen};
use crate::lines::line_of;
use crate::player::{Ask, Player, Trouble, expect, seat_of};
use crate::serving::{rejoin, serve};
use dv_feed::Taken;
use dv_keeper::SessionFault;
use dv_member::{Met, meet};
use dv_model::{Bytes, Step, Word};
use dv_naming::{Keeping, Tally};
use dv_texts::ReplyText;
use std::alloc::AllocError;
use std::sync::Wait;

// What ends the line of a command that the disk failed.
const FAILED: &[u8] = b" NO [UNAVAILABLE] FAULTS 1\n";

// Whether the disk failed the last command of which this was told.
fn is_failed(told: &[u8]) -> bool {
    told.ends_with(FAILED)
}

impl<K: Keeping, L: Tally, M: Tally> Player<K, L, M> {
    // Serves a line of a script. Where memory runs out behind its entry the seat stays empty.
    fn serve_line<R: Wait>(&mut self, rt: &R, text: &[u8]) -> Result<(), Trouble> {
        let line = line_of(self.alloc, text)?;
        let at = seat_of(line.session.as_slice());
        let mut session = self.rise(at)?;
        let mut replies = ReplyText::new(self.alloc, line.session);
        match serve(rt, &self.keeper, &mut session, &line.command, &mut replies) {
            Ok(()) => {
                self.sit(at, session);
                self.tell(&replies)
            }
            Err(SessionFault::NoMemory) => {
                self.sit(at, session);
                Err(Trouble::NoMemory)
            }
            Err(SessionFault::NoMemoryAfter(_)) => {
                drop(session);
                Err(Trouble::NoMemoryAfter)
            }
        }
    }

    // Serves a line, and once more where the disk fails it.
    fn serve_again<R: Wait>(&mut self, rt: &R, text: &[u8]) -> Result<(), Trouble> {
        self.serve_line(rt, text)?;
        if is_failed(self.out.taken()) {
            return self.serve_line(rt, text);
        }
        Ok(())
    }

    fn add_data(&mut self, text: &[u8]) -> Result<(), Trouble> {
        let line = line_of(self.alloc, text)?;
        let at = seat_of(line.session.as_slice());
        let session = self.rise(at)?;
        let mut replies = ReplyText::new(self.alloc, line.session);
        let done = data_lines(&session, &line.command, &mut replies);
        self.sit(at, session);
        done?;
        self.tell(&replies)
    }

    fn refresh(&mut self, at: usize, told: Taken) -> Result<(), Trouble> {
        let mut session = self.rise(at)?;
        let taken = session.refresh();
        self.sit(at, session);
        expect(taken? == told)
    }

    fn rejoin<R: Wait>(&mut self, rt: &R, at: usize) -> Result<(), Trouble> {
        let mut session = self.rise(at)?;
        let done = rejoin(rt, &self.keeper, &mut session);
        self.sit(at, session);
        done
    }

    fn gather<R: Wait>(&mut self, rt: &R, a: usize, b: usize) -> Result<(), Trouble> {
        let (mut one, mut other) = self.rise_both(a, b)?;
        let done = self.keeper.gather(rt, &mut one, &mut other);
        self.sit(a, one);
        self.sit(b, other);
        Ok(done?)
    }

    fn meet(&mut self, a: usize, b: usize, wanted: Met) -> Result<(), Trouble> {
        let (mut one, mut other) = self.rise_both(a, b)?;
        let met = meet(&mut one, &mut other);
        self.sit(a, one);
        self.sit(b, other);
        expect(met == wanted)
    }

    // No replies yet of a session.
    fn replies_of(&self, at: usize) -> Result<ReplyText, AllocError> {
        let letter = b'a'.saturating_add(u8::try_from(at).unwrap_or(u8::MAX));
        Ok(ReplyText::new(self.alloc, Bytes::from_slice(self.alloc, &[letter])?))
    }

    fn select<R: Wait>(&mut self, rt: &R, at: usize, offset: u32) -> Result<(), Trouble> {
        let mut replies = self.replies_of(at)?;
        let mut session = self.rise(at)?;
        let done = select_seen(
            self.alloc,
            rt,
            &self.keeper,
            &mut session,
            offset,
            &mut replies,
        );
        self.sit(at, session);
        done?;
        self.tell(&replies)
    }

    fn move_on<R: Wait>(
        &mut self,
        rt: &R,
        at: usize,
        step: Step,
        word: Word,
        offset: u32,
    ) -> Result<(), Trouble> {
        let mut replies = self.replies_of(at)?;
        let mut session = self.rise(at)?;
        let done = tell_seen(
            self.alloc,
            rt,
            &self.keeper,
            &mut session,
            step,
            word,
            offset,
            &mut replies,
        );
        self.sit(at, session);
        done?;
        self.tell(&replies)
    }

    fn stay_untold(&mut self, at: usize, offset: u32, uids: &[u32]) -> Result<(), Trouble> {
        let session = self.rise(at)?;
        let done = is_untold(&session, offset, uids);
        self.sit(at, session);
        done
    }

    /// Does what is asked.
    pub(crate) fn ask<R: Wait>(&mut self, rt: &R, ask: Ask<'_>) -> Result<(), Trouble> {
        match ask {
            Ask::Line(text) => self.serve_line(rt, text),
            Ask::Again(text) => self.serve_again(rt, text),
            Ask::Data(text) => self.add_data(text),
            Ask::Refresh(at, told) => self.refresh(at, told),
            Ask::Rejoin(at) => self.rejoin(rt, at),
            Ask::Gather(a, b) => self.gather(rt, a, b),
            Ask::Meet(a, b, met) => self.meet(a, b, met),
            Ask::Select(at, offset) => self.select(rt, at, offset),
            Ask::Tell(at, step, word, offset) => self.move_on(rt, at, step, word, offset),
            Ask::Untold(at, offset, uids) => self.stay_untold(at, offset, uids),
            Ask::Login(at) => self.log_in(rt, at),
            Ask::Pop(text) => self.answer_client(rt, text),
        }
    }

    // Does what is asked, and once more where memory was refused.
    fn ask_twice<R: Wait>(&mut self, rt: &R, ask: Ask<'_>) -> Result<(), Trouble> {
        match self.ask(rt, ask) {
            Err(Trouble::NoMemory) => {
                self.refused = self.refused.saturating_add(1);
                self.ask(rt, ask)
            }
            came => came,
        }
    }

    /// Does all that is asked, one after another, until a session is spent.
    pub(crate) fn ask_all<R: Wait>(&mut self, rt: &R, asks: &[Ask<'_>]) -> Result<(), Trouble> {
        for at in 0..asks.len() {
            let came = self.ask_twice(rt, asks[at]);
            self.ends.push(self.out.taken().len())?;
            match came {
                Ok(()) => {}
                Err(Trouble::NoMemoryAfter) => {
                    self.spent = Some(at);
                    return Ok(());
                }
                Err(trouble) => return Err(trouble),
            }
        }
        Ok(())
    }

    /// Does all that is asked of sessions that aren't spent.
    pub(crate) fn ask_others<R: Wait>(&mut self, rt: &R, asks: &[Ask<'_>]) -> Result<(), Trouble> {
        for ask in asks {
            match self.ask_twice(rt, *ask) {
                Ok(()) => {}
                Err(Trouble::NoSession) => {}
                Err(trouble) => return Err(trouble),
            }
        }
        Ok(())
    }
}
