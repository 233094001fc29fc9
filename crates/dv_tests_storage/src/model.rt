//! A plain model of a storage, as a caller knows it.

use dv_model::Bytes;
use std::alloc::Global;
use std::test::Fail;

/// What a call does.
#[derive(Clone, Copy, PartialEq, Eq)]
pub enum Word {
    Save,
    Copy,
    Drop,
    Get,
    Purge,
}

/// A call, with the id that it is of; a message is a number, as four bytes.
#[derive(Clone, Copy)]
pub struct Step {
    pub word: Word,
    pub id: u32,
}

/// How many references an id has, and its message.
#[derive(Clone, Copy)]
pub struct Item {
    pub count: u32,
    pub message: u32,
}

/// The ids from 1 on, and how many without a reference a purge removes, where that is known.
#[derive(Drop)]
pub struct Model {
    pub items: Vec<Item>,
    pub gone: Option<u32>,
}

/// Adds a line of a word and a number.
fn say(alloc: Global, text: &mut Bytes, word: &str, number: u32) -> Result<(), Fail> {
    let line = format!(in alloc; "{word}{number}\n")?;
    text.extend(line.as_bytes())?;
    Ok(())
}

/// Adds a message's line.
fn say_message(text: &mut Bytes, word: &[u8], message: u32) -> Result<(), Fail> {
    text.extend(word)?;
    text.extend(&message.to_be_bytes())?;
    text.extend(b"\n")?;
    Ok(())
}

/// Adds the line of a call.
pub fn write_step(alloc: Global, script: &mut Bytes, step: Step) -> Result<(), Fail> {
    match step.word {
        Word::Save => say_message(script, b"SAVE {4}\n", step.id),
        Word::Copy => say(alloc, script, "COPY ", step.id),
        Word::Drop => say(alloc, script, "DROP ", step.id),
        Word::Get => say(alloc, script, "GET ", step.id),
        Word::Purge => {
            script.extend(b"PURGE\n")?;
            Ok(())
        }
    }
}

impl Model {
    /// That of a new storage.
    pub fn new(alloc: Global) -> Model {
        Model {
            items: Vec::new(alloc),
            gone: Some(0),
        }
    }

    /// The same, but what a purge removes isn't known.
    pub fn copy(&self, alloc: Global) -> Result<Model, Fail> {
        Ok(Model {
            items: Vec::from_slice(alloc, self.items.as_slice())?,
            gone: None,
        })
    }

    /// The next id.
    pub fn next(&self) -> u32 {
        u32::try_from(self.items.len())
            .unwrap_or(0)
            .saturating_add(1)
    }

    fn item(&self, id: u32) -> Item {
        match self.items.get((id as usize).wrapping_sub(1)) {
            Some(item) => *item,
            None => Item {
                count: 0,
                message: 0,
            },
        }
    }

    /// Whether it is answered that there is no such id.
    pub fn refuses(&self, step: Step) -> bool {
        match step.word {
            Word::Save | Word::Purge => false,
            _ => self.item(step.id).count == 0,
        }
    }

    /// The answer to a call that is done or refused; of a purge its front.
    pub fn answer(&self, alloc: Global, step: Step) -> Result<Bytes, Fail> {
        let mut text = Bytes::new(alloc);
        if self.refuses(step) {
            text.extend(b"NO NONE\n")?;
            return Ok(text);
        }
        match step.word {
            Word::Save => say(alloc, &mut text, "OK ", self.next())?,
            Word::Copy | Word::Drop => say(alloc, &mut text, "OK ", step.id)?,
            Word::Get => say_message(&mut text, b"OK {4}\n", self.item(step.id).message)?,
            Word::Purge => match self.gone {
                Some(gone) => say(alloc, &mut text, "OK PURGED ", gone)?,
                None => text.extend(b"OK PURGED ")?,
            },
        }
        Ok(text)
    }

    /// Does a call that isn't refused.
    pub fn apply(&mut self, step: Step) -> Result<(), Fail> {
        let Item { count, message } = self.item(step.id);
        let now = match step.word {
            Word::Save => {
                self.items.push(Item {
                    count: 1,
                    message: step.id,
                })?;
                return Ok(());
            }
            Word::Purge => {
                self.gone = Some(0);
                return Ok(());
            }
            Word::Get => return Ok(()),
            Word::Copy => count.saturating_add(1),
            Word::Drop => count.saturating_sub(1),
        };
        if now == 0 {
            self.gone = self.gone.map(|gone| gone.saturating_add(1));
        }
        if let Some(known) = self.items.get_mut((step.id as usize).wrapping_sub(1)) {
            *known = Item {
                count: now,
                message,
            };
        }
        Ok(())
    }
}
