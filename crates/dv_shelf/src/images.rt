ghost use Rattle.std.specs.Prelude.{◌≡◌, ◌+◌, ◌<◌, ◌≤◌, [], ◌∷◌, ◌++◌, length, map, drop, slice_index_or, not, nat_lt, ◌&&◌, IfOk, OnOk};
ghost use Rattle.std.specs.List.{list_any};
ghost use Rattle.dv_shelf.specs.Images.{settles};
ghost use Rattle.dv_shelf.specs.Folders.{folder_of, with_file, file_list};
ghost use Rattle.dv_shelf.specs.Disks.{files_after};
ghost use Rattle.dv_shelf.specs.Records.{made_call, made_calls};
ghost use Rattle.dv_shelf.specs.Samples.{AreSamples, AddsImage, AddsImages, AddsSamples, AreNamesWith, first_bytes, torn_with};

use crate::Name;
use crate::files::{has_name, same_name, written};
use crate::mem_shelf::Folder;
use crate::record::{Call, Deed, Record};
use dv_model::{Bytes, List, NoMemory};
use std::alloc::Global;

impl Record {
    /// Sample images of the disk after these calls: the files as a read gives them, and for each
    /// unsynced write of some bytes the old bytes, the new bytes, and the new bytes with 0x80,
    /// 0x00 and 0x37 as the first one.
    pub fn images(&self, alloc: Global) -> Result<List<Folder>, NoMemory>
        ensures { IfOk result (λ images. AreSamples (made_calls self.now) images) }
    {
        let mut images = List::new(alloc);
        let log = self.file(alloc, Name::Log)?;
        self.add_image(alloc, &mut images, Name::Log, &log)?;
        for i in 0..self.calls().len() {
            self.add_samples(alloc, &mut images, i)?;
        }
        Ok(images)
    }

    /// Adds the images of a call, if it is an unsynced write.
    fn add_samples(
        &self,
        alloc: Global,
        images: &mut List<Folder>,
        i: usize,
    ) -> Result<(), NoMemory>
        requires { i < length self.now.calls.items }
        ensures { OnOk result (AddsSamples (made_calls self.now) i images.old images.new) }
    {
        let call = self.calls()[i];
        match call.deed {
            Deed::Write { at } => self.add_write(alloc, images, i, call, at),
            Deed::Sync => Ok(()),
            Deed::Replace => Ok(()),
            Deed::Remove => Ok(()),
        }
    }

    fn add_write(
        &self,
        alloc: Global,
        images: &mut List<Folder>,
        i: usize,
        call: Call,
        at: u32,
    ) -> Result<(), NoMemory>
        requires place { i < length self.now.calls.items }
        requires there { slice_index_or self.now.calls.items i call ≡ call }
        requires write { call.deed ≡ Deed.Write at }
        ensures { OnOk result (AddsSamples (made_calls self.now) i images.old images.new) }
    {
        if !self.is_open(i, &call) {
            return Ok(());
        }
        let old = self.file_upto(alloc, call.name, i)?;
        self.add_image(alloc, images, call.name, &old)?;
        self.add_torn_images(alloc, images, call.name, at, self.bytes_of(&call))?;
        Ok(())
    }

    /// Whether the i-th call was handed some bytes, and no later one has settled its file.
    fn is_open(&self, i: usize, call: &Call) -> bool
        requires { i < length self.now.calls.items }
        ensures { result ≡ (nat_lt 0 call.now.len
            && not (list_any (settles call.now.name) (drop (i + 1) (made_calls self.now)))) }
    {
        call.len > 0 && self.is_unsynced(i + 1, call.name)
    }

    /// Adds the new bytes of a write, with four first bytes.
    fn add_torn_images(
        &self,
        alloc: Global,
        images: &mut List<Folder>,
        name: Name,
        at: u32,
        bytes: &[u8],
    ) -> Result<(), NoMemory>
        requires { 0 < length bytes.now }
        ensures { OnOk result (AddsImages (made_calls self.now) name
            (map (torn_with (made_calls self.now) name at (drop 1 bytes.now))
            (first_bytes bytes.now)) images.old images.new) }
    {
        let (_, rest) = bytes.split_at(1);
        self.add_torn(alloc, images, name, at, bytes[0], rest)?;
        self.add_torn(alloc, images, name, at, 0x80, rest)?;
        self.add_torn(alloc, images, name, at, 0x00, rest)?;
        self.add_torn(alloc, images, name, at, 0x37, rest)?;
        Ok(())
    }

    fn add_torn(
        &self,
        alloc: Global,
        images: &mut List<Folder>,
        name: Name,
        at: u32,
        first: u8,
        rest: &[u8],
    ) -> Result<(), NoMemory>
        ensures { OnOk result (AddsImage (made_calls self.now) name
            (torn_with (made_calls self.now) name at rest.now first) images.old images.new) }
    {
        let mut bytes = List::new(alloc);
        bytes.push(first)?;
        bytes.extend(rest)?;
        let file = written(alloc, at, bytes.as_slice(), self.file(alloc, name)?)?;
        self.add_image(alloc, images, name, &Some(file))
    }

    /// Adds an image with this file at that name and the others as a read gives them.
    fn add_image(
        &self,
        alloc: Global,
        images: &mut List<Folder>,
        name: Name,
        file: &Option<Bytes>,
    ) -> Result<(), NoMemory>
        ensures { OnOk result
            (AddsImage (made_calls self.now) name file.now images.old images.new) }
    {
        let image = self.image(alloc, name, file)?;
        images.push(image)?;
        Ok(())
    }

    fn image(&self, alloc: Global, name: Name, file: &Option<Bytes>) -> Result<Folder, NoMemory>
        ensures { IfOk result (λ image. folder_of image
            ≡ with_file (files_after (made_calls self.now)) name file.now) }
    {
        let names = self.names_with(alloc, name)?;
        let mut image = List::new(alloc);
        for other in names.as_slice() {
            let bytes = self.file_or(alloc, *other, name, file)?;
            put_file(&mut image, *other, bytes)?;
        }
        Ok(image)
    }

    /// The names of the files that are there, and this one.
    fn names_with(&self, alloc: Global, name: Name) -> Result<List<Name>, NoMemory>
        ensures { IfOk result (λ names.
            AreNamesWith (files_after (made_calls self.now)) name names) }
    {
        let mut names = self.names(alloc)?;
        if has_name(names.as_slice(), name) {
            return Ok(names);
        }
        names.push(name)?;
        Ok(names)
    }

    /// The file of a name, but this one at that name.
    fn file_or(
        &self,
        alloc: Global,
        other: Name,
        name: Name,
        file: &Option<Bytes>,
    ) -> Result<Option<Bytes>, NoMemory>
        ensures { IfOk result (λ made. made
            ≡ with_file (files_after (made_calls self.now)) name file.now other) }
    {
        if same_name(name, other) {
            copy_file(alloc, file)
        } else {
            self.file(alloc, other)
        }
    }
}

fn copy_file(alloc: Global, file: &Option<Bytes>) -> Result<Option<Bytes>, NoMemory>
    ensures { IfOk result (λ made. made ≡ file.now) }
{
    match file {
        Some(bytes) => Ok(Some(List::from_slice(alloc, bytes.as_slice())?)),
        None => Ok(None),
    }
}

/// Adds a file, if it is there.
fn put_file(image: &mut Folder, name: Name, file: Option<Bytes>) -> Result<(), NoMemory>
    ensures { OnOk result (image.new ≡ image.old ++ file_list name file) }
{
    match file {
        Some(bytes) => {
            image.push((name, bytes))?;
            Ok(())
        }
        None => Ok(()),
    }
}
