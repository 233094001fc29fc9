ghost use Rattle.std.specs.Prelude.{◌≡◌, ◌++◌, OnOk, IfOk};
ghost use Rattle.std.specs.List.{list_any};
ghost use Rattle.dv_shelf.specs.Folders.{folder_of, has_name, file_list, same_name, with_file};
ghost use Rattle.dv_system.specs.Entries.{IsEntryImage};
ghost use Rattle.dv_system.specs.Disks.{files_of};
ghost use Rattle.dv_memory_system.specs.Samples.{name_then, firms};

use crate::bytes::copy_file;
use crate::state::{State, States, same_name};
use crate::step::{Deed, Step};
use crate::system::{MemSystem, name_of};
use dv_model::{Bytes, List, NoMemory};
use dv_shelf::{Folder, Name};
use dv_system::Entry;
use std::alloc::Global;

impl MemSystem {
    ghost use Rattle.dv_memory_system.specs.Systems.{disk_of};
    ghost use Rattle.dv_shelf.specs.Samples.{AreNamesWith};
    ghost use Rattle.dv_memory_system.specs.Samples.{AddsImages, AreImages};
    ghost use Rattle.dv_memory_system.specs.States.{IsShown};

    /// Sample images for tests, each a folder that a crash may leave: for each name that a call
    /// named the file as reads give it, as its last sync left it, with the first half of each
    /// write since, and so each of the files that a crash may bring back; the others as reads
    /// give them. And no file at all, where the folder itself was never made durable.
    pub fn images(&self, alloc: Global) -> Result<List<Folder>, NoMemory>
        ensures { IfOk result (AreImages (disk_of self.now)) }
    {
        let mut images = List::new(alloc);
        self.add_missing(alloc, &mut images)?;
        let names = self.names_with(alloc, Name::Index)?;
        for name in names.as_slice() {
            self.add_samples(alloc, &mut images, *name)?;
        }
        Ok(images)
    }

    /// Adds a folder without files, where a crash may take the folder away.
    fn add_missing(&self, alloc: Global, images: &mut List<Folder>) -> Result<(), NoMemory>
        ensures { OnOk result (AddsImages (disk_of self.now) images.old images.new) }
    {
        if any_firms(self.steps()) {
            return Ok(());
        }
        let image = List::new(alloc);
        images.push(image)?;
        Ok(())
    }

    /// Adds the images in which the file of one name is not as reads give it.
    fn add_samples(
        &self,
        alloc: Global,
        images: &mut List<Folder>,
        name: Name,
    ) -> Result<(), NoMemory>
        ensures { OnOk result (AddsImages (disk_of self.now) images.old images.new) }
    {
        let states = States::after(alloc, self.steps(), name)?;
        self.add_states(alloc, images, name, &states.here)
    }

    fn add_states(
        &self,
        alloc: Global,
        images: &mut List<Folder>,
        name: Name,
        state: &State,
    ) -> Result<(), NoMemory>
        requires { IsShown ((disk_of self.now).named name) state.now }
        ensures { OnOk result (AddsImages (disk_of self.now) images.old images.new) }
    {
        self.add_image(alloc, images, name, &state.first.read)?;
        self.add_image(alloc, images, name, &state.first.synced)?;
        self.add_image(alloc, images, name, &state.first.torn)?;
        for file in state.others.as_slice() {
            self.add_image(alloc, images, name, file)?;
        }
        Ok(())
    }

    /// Adds an image with this file at that name and the others as reads give them.
    fn add_image(
        &self,
        alloc: Global,
        images: &mut List<Folder>,
        name: Name,
        file: &Option<Bytes>,
    ) -> Result<(), NoMemory>
        requires { IsEntryImage ((disk_of self.now).named name) file.now }
        ensures { OnOk result (AddsImages (disk_of self.now) images.old images.new) }
    {
        let image = self.image(alloc, name, file)?;
        images.push(image)?;
        Ok(())
    }

    fn image(&self, alloc: Global, name: Name, file: &Option<Bytes>) -> Result<Folder, NoMemory>
        ensures { IfOk result (λ image. folder_of image
            ≡ with_file (files_of (disk_of self.now)) name file.now) }
    {
        let names = self.names_with(alloc, name)?;
        let mut image = List::new(alloc);
        for other in names.as_slice() {
            let bytes = self.file_or(alloc, *other, name, file)?;
            put_file(&mut image, *other, bytes)?;
        }
        Ok(image)
    }

    /// The file of a name, but this one at that name.
    fn file_or(
        &self,
        alloc: Global,
        other: Name,
        name: Name,
        file: &Option<Bytes>,
    ) -> Result<Option<Bytes>, NoMemory>
        ensures { IfOk result (λ made. made
            ≡ with_file (files_of (disk_of self.now)) name file.now other) }
    {
        if same_name(name, other) {
            copy_file(alloc, file)
        } else {
            self.file(alloc, Entry::File(other))
        }
    }

    /// This name and those that calls named, once each.
    fn names_with(&self, alloc: Global, name: Name) -> Result<List<Name>, NoMemory>
        ensures { IfOk result (AreNamesWith (files_of (disk_of self.now)) name) }
    {
        let mut names = List::new(alloc);
        names.push(name)?;
        for step in self.steps() {
            add_name(&mut names, name_of(step.deed))?;
        }
        Ok(names)
    }
}

/// Adds a name, unless the list has it.
fn add_name(names: &mut List<Name>, name: Name) -> Result<(), NoMemory>
    ensures { OnOk result (names.new ≡ name_then names.old name) }
{
    if !has_name(names.as_slice(), name) {
        names.push(name)?;
    }
    Ok(())
}

fn has_name(names: &[Name], name: Name) -> bool
    ensures { result ≡ has_name names.now name }
{
    names.iter().any(|n| same_name(*n, name))
}

/// Adds a file, if it is there.
fn put_file(image: &mut Folder, name: Name, file: Option<Bytes>) -> Result<(), NoMemory>
    ensures { OnOk result (image.new ≡ image.old ++ file_list name file) }
{
    match file {
        Some(bytes) => {
            image.push((name, bytes))?;
            Ok(())
        }
        None => Ok(()),
    }
}

fn any_firms(steps: &[Step]) -> bool
    ensures { result ≡ list_any (λ s. firms s.deed) steps.now }
{
    steps.iter().any(|step| firms(step.deed))
}

/// Whether a crash leaves the folder itself behind this call.
fn firms(deed: Deed) -> bool
    ensures { result ≡ firms deed }
{
    match deed {
        Deed::FoundFolder => true,
        Deed::SyncParent { is_done } => is_done,
        _ => false,
    }
}
