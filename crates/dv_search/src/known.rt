ghost use Rattle.std.specs.Prelude.{◌≡◌, ◌++◌, ◌∷◌, [], ◌<◌, All, OnErr, OnOk};
ghost use Rattle.std.specs.Option.{option_copied};
ghost use Rattle.dv_search.specs.Facts.{facts_of};

use crate::facts::{MailFacts, facts_of};
use dv_model::{List, NoMemory};
use std::alloc::Global;
use std::marker::Model;

/// What is known of messages, by rising UIDs.
#[derive(Drop)]
pub struct Mail {
    facts: List<MailFacts>,
}

impl Model for Mail {
    ghost use Rattle.std.specs.Prelude.{List};
    ghost use Rattle.dv_search.specs.declared.facts.MailFacts.{MailFacts};
    ghost use Rattle.dv_search.specs.Facts.{AreRising};

    ghost Value = { List MailFacts };

    ghost view = { λ m. m.facts };

    ghost invariant = { λ m. AreRising m.facts };
}

impl Mail {
    /// Nothing is known. Takes no memory.
    pub fn new(alloc: Global) -> Mail
        ensures { result ≡ [] }
    {
        Mail {
            facts: List::new(alloc),
        }
    }

    /// Adds what is known of a message whose UID is above those before it. After `NoMemory` the
    /// facts are as before.
    pub fn push(&mut self, facts: MailFacts) -> Result<(), NoMemory>
        requires { All (λ f. f.uid < facts.uid) self.old }
        ensures ok { OnOk result (self.new ≡ self.old ++ facts ∷ []) }
        ensures err { OnErr result (self.new ≡ self.old) }
    {
        self.facts.push(facts)?;
        Ok(())
    }

    /// The facts of a UID, found by halves.
    pub fn of(&self, uid: u32) -> Option<&MailFacts>
        ensures { option_copied result ≡ facts_of self.now uid }
    {
        facts_of(self.facts.as_slice(), uid)
    }
}
