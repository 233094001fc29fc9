//! A POP3 client beside the sessions.

ghost use Rattle.std.specs.Option.{ForSome};
ghost use Rattle.std.specs.Prelude.{◌≡◌, IfOk, false};

use crate::player::{Player, Trouble, expect};
use dv_maildrop::{parse_line, put_greeting};
use dv_model::Bytes;
use dv_naming::{Keeping, Tally};
use dv_pop3::{Pop, PopFault, login};
use dv_shelf::Sink;
use std::sync::Wait;

/// Where a POP3 client sits that hasn't quit, and the seat that its session left.
#[derive(Drop)]
pub struct PopSeat<K: Keeping, L: Tally, M: Tally> {
    at: usize,
    client: Option<Pop<K, L, M>>,
    ghost open: { ForSome client
        (λ p. (p.maildrop.ended ≡ false) × (p.session.spent ≡ false)) },
}

impl<K: Keeping, L: Tally, M: Tally> PopSeat<K, L, M> {
    /// Nobody sits there.
    pub fn empty() -> PopSeat<K, L, M> {
        PopSeat {
            at: 0,
            client: None,
        }
    }

    // The client leaves.
    fn rise(&mut self) -> Result<Pop<K, L, M>, Trouble>
        ensures { IfOk result (λ p. (p.maildrop.ended ≡ false) × (p.session.spent ≡ false)) }
    {
        match self.client.take() {
            Some(client) => Ok(client),
            None => Err(Trouble::NoSession),
        }
    }

    // A client sits down, whose session came from this seat.
    fn sit(&mut self, at: usize, client: Pop<K, L, M>)
        requires { (client.maildrop.ended ≡ false) × (client.session.spent ≡ false) }
    {
        self.at = at;
        drop(self.client.replace(client));
    }
}

impl<K: Keeping, L: Tally, M: Tally> Player<K, L, M> {
    // Adds what the client was answered to the output.
    fn tell_client(&mut self, text: &[u8]) -> Result<(), Trouble> {
        match self.out.write_all(text) {
            Ok(()) => Ok(()),
            Err(_) => Err(Trouble::Unlike),
        }
    }

    /// A session begins as a POP3 client's.
    pub(crate) fn log_in<R: Wait>(&mut self, rt: &R, at: usize) -> Result<(), Trouble> {
        expect(self.pop_seat.client.is_none())?;
        let mut text = Bytes::new(self.alloc);
        put_greeting(&mut text)?;
        let session = self.rise(at)?;
        match login(self.alloc, rt, &self.keeper, session) {
            Ok(client) => self.pop_seat.sit(at, client),
            Err((session, fault)) => {
                self.sit(at, session);
                return Err(match fault {
                    PopFault::NoMemory => Trouble::NoMemory,
                    PopFault::Disk(_) => Trouble::Unlike,
                });
            }
        }
        self.tell_client(text.as_slice())
    }

    // A client takes its seat again; behind QUIT its session does.
    fn seat_client(&mut self, at: usize, client: Pop<K, L, M>)
        requires { client.session.spent ≡ false }
    {
        if client.maildrop().has_ended() {
            self.sit(at, client.session());
        } else {
            self.pop_seat.sit(at, client);
        }
    }

    /// Answers a line of the POP3 client. Behind QUIT its session is back in its seat; where memory
    /// runs out that stays empty.
    pub(crate) fn answer_client<R: Wait>(&mut self, rt: &R, text: &[u8]) -> Result<(), Trouble> {
        let at = self.pop_seat.at;
        let mut client = self.pop_seat.rise()?;
        match client.answer(rt, &self.keeper, &parse_line(text)) {
            Ok(answer) => {
                self.seat_client(at, client);
                self.tell_client(answer.as_slice())
            }
            Err(_) => {
                drop(client);
                Err(Trouble::NoMemoryAfter)
            }
        }
    }
}
