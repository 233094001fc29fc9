ghost use Rattle.std.specs.Prelude.{◌≡◌, ◌<◌, ◌&&◌, true, fold, IfOk, IsSomeAnd, None, OnErr, OnOk, length, nat_le, slice_get, if◌then◌else◌};
ghost use Rattle.std.specs.List.{list_all};
ghost use Rattle.dv_model.specs.Effects.{added_extension, introduced, may_be_added, on_current, reintroduced, with_header_parts, with_intro, with_reset, without_current};
ghost use Rattle.dv_model.specs.declared.types.Mailbox.{Mailbox};
ghost use Rattle.dv_model.specs.Mailboxes.{IsValid};
ghost use Rattle.dv_ext.specs.Changes.{Does, HasTable, Keeps, Zeroes};
ghost use Rattle.dv_ext.specs.Quiet.{is_quiet};
ghost use Rattle.dv_ext.specs.Sizes.{extensions_behind, leave_parts};
ghost use Rattle.dv_ext.specs.Tables.{IsTable, empty_table, with_table};
ghost use Rattle.dv_ext.specs.declared.change.PartsChange.TheVariants.{Grown, Same};

use crate::change::PartsChange;
use crate::edits::{grow_at, new_extension, reset_at, write_at};
use crate::limits::{fits_added, fits_grown, may_be_added, place_of};
use dv_model::{Current, Duplicate, Extension, Intro, List, NoMemory, Part};
use std::alloc::Global;
use std::marker::Model;

/// The extensions of a mailbox in the order of their introduction, and the current one, of which
/// further records speak. What the records do is this project's own.
#[derive(Drop)]
pub struct Extensions {
    alloc: Global,
    list: List<Extension>,
    current: Option<Current>,
}

impl Model for Extensions {
    ghost use Rattle.dv_ext.specs.Tables.{Table, IsTable};

    ghost Value = { Table };

    ghost view = { λ t. record { extensions = t.list; current = t.current } };

    ghost invariant = { λ t. IsTable (record { extensions = t.list; current = t.current }) };
}

impl Extensions {
    /// No extensions, and no current one. Takes no memory.
    pub fn empty(alloc: Global) -> Extensions
        ensures { result ≡ empty_table }
    {
        Extensions {
            alloc,
            list: List::new(alloc),
            current: None,
        }
    }

    /// A table of these extensions with this current one. Takes no memory.
    pub fn new(alloc: Global, list: List<Extension>, current: Option<Current>) -> Extensions
        requires { IsTable (record { extensions = list; current = current }) }
        ensures { result ≡ record { extensions = list; current = current } }
    {
        Extensions {
            alloc,
            list,
            current,
        }
    }

    /// The extensions and the current one. Takes no memory.
    pub fn into_parts(self) -> (List<Extension>, Option<Current>)
        ensures list { result.0 ≡ self.extensions }
        ensures current { result.1 ≡ self.current }
        ensures valid { IsTable self }
    {
        let Extensions { list, current, .. } = self;
        (list, current)
    }

    /// The extensions, in the order of their introduction.
    pub fn list(&self) -> &List<Extension>
        ensures list { result.now ≡ self.now.extensions }
        ensures valid { IsTable self.now }
    {
        &self.list
    }

    /// The current extension.
    pub fn current(&self) -> Option<Current>
        ensures { result ≡ self.now.current }
    {
        self.current
    }

    // An introduction of a known extension.
    fn reintroduce(&mut self, place: usize, intro: &Intro) -> Result<PartsChange, NoMemory>
        requires { place < length self.old.extensions }
        ensures ok { IfOk result (λ change. IsSomeAnd (slice_get self.old.extensions place)
            (λ e. Does (λ m. reintroduced m place e intro.now) self.old self.new change)) }
        ensures valid { IfOk result (λ change. Keeps self.old self.new change) }
        ensures err { OnErr result (self.new ≡ self.old) }
    {
        let known = self.list.get(place);
        if known.reset_id != intro.reset_id || !fits_grown(self.list.as_slice(), place, intro) {
            self.current = None;
            return Ok(PartsChange::Same);
        }
        let grows = known.record_size < intro.record_size;
        grow_at(self.alloc, &mut self.list, place, intro)?;
        let place = place as u32;
        let size = intro.record_size;
        self.current = Some(Current {
            extension: place,
            size,
        });
        Ok(grown(grows, place, size))
    }

    // An introduction of an extension that isn't in the table.
    fn introduce(&mut self, intro: &Intro) -> Result<PartsChange, NoMemory>
        requires { introduced self.old.extensions intro.now ≡ None }
        ensures ok { IfOk result (λ change. Does (λ m. if may_be_added intro.now
            then added_extension m intro.now else without_current m) self.old self.new change) }
        ensures valid { IfOk result (λ change. Keeps self.old self.new change) }
        ensures err { OnErr result (self.new ≡ self.old) }
    {
        if !may_be_added(intro) || !fits_added(self.list.as_slice(), intro) {
            self.current = None;
            return Ok(PartsChange::Same);
        }
        let made = new_extension(self.alloc, intro)?;
        let extension = self.list.len() as u32;
        self.list.push(made)?;
        let size = intro.record_size;
        self.current = Some(Current { extension, size });
        Ok(PartsChange::Added { size })
    }

    /// Whether an introduction leaves the extensions, and so each row, as they are.
    pub fn is_quiet(&self, intro: &Intro) -> bool
        ensures { result ≡ is_quiet self.now.extensions intro.now }
    {
        let list = self.list.as_slice();
        match place_of(list, intro) {
            Some(place) => {
                let known = &list[place];
                known.reset_id != intro.reset_id
                    || !fits_grown(list, place, intro)
                    || has_sizes(known, intro)
            }
            None => !may_be_added(intro) || !fits_added(list, intro),
        }
    }

    /// Whether introductions leave the extensions, and so each row, as they are.
    pub fn are_quiet(&self, intros: &[Intro]) -> bool
        ensures is { result ≡ list_all (is_quiet self.now.extensions) intros.now }
        ensures parts { result ≡ true → leave_parts self.now.extensions intros.now ≡ true }
    {
        for intro in intros {
            if !self.is_quiet(intro) {
                return false;
            }
        }
        true
    }

    /// Introduces an extension, which becomes current, or none does, where that leaves the
    /// extensions as they are. Takes no memory, and changes no row.
    pub fn make_current(&mut self, intro: &Intro)
        requires { is_quiet self.old.extensions intro.now ≡ true }
        ensures does { Does (λ m. with_intro m intro.now) self.old self.new Same }
        ensures list { self.new.extensions ≡ self.old.extensions }
    {
        let list = self.list.as_slice();
        let Some(place) = place_of(list, intro) else {
            self.current = None;
            return;
        };
        if list[place].reset_id != intro.reset_id || !fits_grown(list, place, intro) {
            self.current = None;
            return;
        }
        self.current = Some(Current {
            extension: place as u32,
            size: intro.record_size,
        });
    }

    /// Introduces an extension, which becomes current, or none does. After `NoMemory` nothing has
    /// changed.
    pub fn intro(&mut self, intro: &Intro) -> Result<PartsChange, NoMemory>
        ensures ok { IfOk result
            (λ change. Does (λ m. with_intro m intro.now) self.old self.new change) }
        ensures valid { IfOk result (λ change. Keeps self.old self.new change) }
        ensures err { OnErr result (self.new ≡ self.old) }
    {
        match place_of(self.list.as_slice(), intro) {
            Some(place) => self.reintroduce(place, intro),
            None => self.introduce(intro),
        }
    }

    /// Introduces extensions in turn. The answer is whether none of them changes the parts of rows.
    /// After `NoMemory` some of them may have been introduced.
    pub fn intro_all(&mut self, intros: &[Intro]) -> Result<bool, NoMemory>
        ensures has { OnOk result ((m : Mailbox) → IsValid (with_table self.old m) →
            HasTable self.new (fold with_intro (with_table self.old m) intros.now)) }
        ensures behind { OnOk result (self.new.extensions
            ≡ extensions_behind self.old.extensions intros.now) }
        ensures parts { IfOk result (λ stay. stay ≡ true →
            leave_parts self.old.extensions intros.now ≡ true) }
    {
        let _ = &self.alloc;
        let mut stay = true;
        for intro in intros {
            match self.intro(intro)? {
                PartsChange::Same => {}
                _ => stay = false,
            }
        }
        Ok(stay)
    }

    /// Gives the current extension another reset number, and zero bytes to its header and its
    /// parts unless `preserve` isn't 0. Takes no memory.
    pub fn reset(&mut self, reset_id: u32, preserve: u8) -> PartsChange
        ensures does { Does
            (λ m. on_current m (with_reset reset_id preserve m)) self.old self.new result }
        ensures zeroes { Zeroes result }
        ensures valid { Keeps self.old self.new result }
    {
        let Some(current) = self.current else {
            return PartsChange::Same;
        };
        let place = current.extension;
        reset_at(
            self.alloc,
            &mut self.list,
            place as usize,
            reset_id,
            preserve,
        );
        if preserve == 0 {
            PartsChange::Zeroed { place }
        } else {
            PartsChange::Same
        }
    }

    /// Writes each part that fits into the header of the current extension. Takes no memory, and
    /// changes no row.
    pub fn header(&mut self, parts: &List<Part>)
        ensures does { Does
            (λ m. on_current m (with_header_parts parts.now m)) self.old self.new Same }
        ensures valid { Keeps self.old self.new Same }
    {
        let Some(current) = self.current else {
            return;
        };
        let place = current.extension as usize;
        write_at(self.alloc, &mut self.list, place, parts.as_slice());
    }
}

// Whether the extension has the sizes of an introduction, or larger ones.
fn has_sizes(known: &Extension, intro: &Intro) -> bool
    ensures { result
        ≡ (nat_le intro.now.hdr_size
        (length known.now.header) && nat_le intro.now.record_size known.now.record_size) }
{
    intro.hdr_size as usize <= known.header.len() && intro.record_size <= known.record_size
}

fn grown(grows: bool, place: u32, size: u16) -> PartsChange
    ensures { result ≡ (if grows then Grown place size else Same) }
{
    if grows {
        PartsChange::Grown { place, size }
    } else {
        PartsChange::Same
    }
}

impl Duplicate for Extensions {
    fn duplicate(&self, alloc: Global) -> Result<Extensions, NoMemory> {
        Ok(Extensions {
            alloc,
            list: self.list.duplicate(alloc)?,
            current: self.current,
        })
    }
}
