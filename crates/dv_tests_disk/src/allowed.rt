//! What a crash may leave of the files that changes were made to.

use dv_model::{Bytes, List, NoMemory};
use dv_shelf::{Folder, Name};
use std::alloc::Global;

/// A change of a folder.
#[derive(Clone, Copy)]
pub enum Change {
    Replace(Name, &'static [u8]),
    Write(Name, u32, &'static [u8]),
    Sync(Name),
    Remove(Name),
}

impl Change {
    /// The file that it changes.
    pub fn name(self) -> Name {
        match self {
            Change::Replace(name, _) => name,
            Change::Write(name, _, _) => name,
            Change::Sync(name) => name,
            Change::Remove(name) => name,
        }
    }
}

fn add_copy(
    alloc: Global,
    files: &mut List<Option<Bytes>>,
    file: Option<&[u8]>,
) -> Result<(), NoMemory> {
    let copy = match file {
        Some(bytes) => Some(List::from_slice(alloc, bytes)?),
        None => None,
    };
    files.push(copy)?;
    Ok(())
}

/// What a crash may leave of a file: one of these, with any bytes between two places. Past the end
/// of one of them a file may end anywhere up to the second place.
#[derive(Drop)]
pub struct Allowed {
    name: Name,
    files: List<Option<Bytes>>,
    // How many of the files, from the first on, no crash leaves any more.
    gone: usize,
    from: usize,
    to: usize,
}

impl Allowed {
    /// This file alone, or none.
    pub fn only(alloc: Global, name: Name, file: Option<&[u8]>) -> Result<Allowed, NoMemory> {
        let mut files = List::new(alloc);
        add_copy(alloc, &mut files, file)?;
        Ok(Allowed {
            name,
            files,
            gone: 0,
            from: 0,
            to: 0,
        })
    }

    // What comes next alone.
    fn settle(&mut self) {
        self.gone = self.files.len();
        self.from = 0;
        self.to = 0;
    }

    // Any bytes between these places too.
    fn loosen(&mut self, from: usize, to: usize) {
        self.from = if self.to == 0 {
            from
        } else {
            self.from.min(from)
        };
        self.to = self.to.max(to);
    }

    /// Behind a change, where reads give these bytes of its file then. One of another file leaves
    /// all as it was.
    pub fn follow(
        &mut self,
        alloc: Global,
        change: Change,
        is_ok: bool,
        read: Option<&[u8]>,
    ) -> Result<(), NoMemory> {
        if change.name() != self.name {
            return Ok(());
        }
        let file = match change {
            Change::Write(_, at, bytes) => {
                let from = at as usize;
                self.loosen(from, from.saturating_add(bytes.len()));
                return Ok(());
            }
            Change::Sync(_) if !is_ok => return Ok(()),
            Change::Sync(_) => read,
            Change::Replace(_, bytes) => Some(bytes),
            Change::Remove(_) => None,
        };
        if is_ok {
            self.settle();
        }
        add_copy(alloc, &mut self.files, file)
    }

    // Whether it is one of these.
    fn allows(&self, file: Option<&[u8]>) -> bool {
        for (at, base) in self.files.as_slice().iter().enumerate() {
            if self.gone <= at && self.comes_of(base, file) {
                return true;
            }
        }
        false
    }

    fn comes_of(&self, base: &Option<Bytes>, file: Option<&[u8]>) -> bool {
        match (base, file) {
            (None, None) => true,
            (Some(_), None) => false,
            (None, Some(bytes)) => self.to > 0 && bytes.len() <= self.to,
            (Some(base), Some(bytes)) => {
                base.len() <= bytes.len()
                    && bytes.len() <= self.to.max(base.len())
                    && self.agrees(base.as_slice(), bytes)
            }
        }
    }

    // Whether the bytes agree with the base outside of the two places.
    fn agrees(&self, base: &[u8], bytes: &[u8]) -> bool {
        for (place, (a, b)) in base.iter().zip(bytes.iter()).enumerate() {
            if *a != *b && (place < self.from || self.to <= place) {
                return false;
            }
        }
        true
    }
}

/// A file of a folder.
pub fn file_in(folder: &Folder, name: Name) -> Option<&[u8]> {
    for (other, bytes) in folder.as_slice() {
        if *other == name {
            return Some(bytes.as_slice());
        }
    }
    None
}

fn is_image(image: &Folder, index: &Allowed, log: &Allowed) -> bool {
    for (name, _) in image.as_slice() {
        if *name != index.name && *name != log.name {
            return false;
        }
    }
    index.allows(file_in(image, index.name)) && log.allows(file_in(image, log.name))
}

/// Whether there are images, and each has no other files, and of these what a crash may leave.
pub fn are_images(images: &[Folder], index: &Allowed, log: &Allowed) -> bool {
    for image in images {
        if !is_image(image, index, log) {
            return false;
        }
    }
    !images.is_empty()
}
