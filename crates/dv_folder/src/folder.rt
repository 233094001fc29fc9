ghost use Rattle.std.specs.Prelude.{◌≡◌, None, IfOk};
ghost use Rattle.dv_folder.specs.Ways.{folder_path};
ghost use Rattle.dv_folder.specs.Paths.{layout_of, missing_of, path_of};

use crate::calls::Calls;
use crate::names::Layout;
use dv_disk::Missing;
use dv_model::{Bytes, List, NoMemory};
use dv_shelf::{Failed, Name, Shelf, ShelfFault};
use std::alloc::Global;

/// The files of a real folder. Each error of the system is counted, and a line on standard error
/// says its number, the file and the reason.
#[derive(Drop)]
pub struct Folder {
    shelf: dv_disk::Folder<Calls>,
}

impl Folder {
    /// The folder at a path, with files of one layout. The first call on it makes it where it is
    /// missing, unless that is refused, and locks it for as long as this value is held; it fails
    /// where another process has it, or where names of the other layout stand in it. This call
    /// touches nothing of the disk.
    pub fn new(
        alloc: Global,
        rt: HostRuntime,
        path: &str,
        layout: Layout,
        missing: Missing,
    ) -> Result<Folder, NoMemory>
        ensures faults { IfOk result (λ shelf. shelf.shelf.faults ≡ 0) }
        ensures path { IfOk result (λ shelf. path_of shelf ≡ folder_path layout path.now) }
        ensures layout { IfOk result (λ shelf. layout_of shelf ≡ layout) }
        ensures missing { IfOk result (λ shelf. missing_of shelf ≡ missing) }
    {
        let calls = Calls::new(alloc, rt, path, layout)?;
        Ok(Folder {
            shelf: dv_disk::Folder::new(alloc, calls, missing),
        })
    }

    /// Tells the reason of a failure that was counted since there were so many.
    fn tell(&self, before: u64) {
        let faults = self.shelf.faults();
        if before < faults {
            self.shelf.system().tell(faults);
        } else {
            self.shelf.system().forget();
        }
    }
}

impl Shelf for Folder {
    ghost sees = { record {
      tells = ⊥;
      files = λ _ _. None;
      may_leave = λ _ _. ⊥;
      moment = λ _. 0;
      left_since = λ _ _ _. ⊥;
      fault_count = λ s. s.shelf.faults;
      mail_reads = λ s. s.shelf.mail_reads;
    } };

    fn read(&mut self, alloc: Global, name: Name) -> Result<Option<Bytes>, ShelfFault> {
        let before = self.shelf.faults();
        let done = self.shelf.read(alloc, name);
        self.tell(before);
        done
    }

    fn has_mailbox(&mut self, alloc: Global) -> Result<bool, ShelfFault> {
        let before = self.shelf.faults();
        let done = self.shelf.has_mailbox(alloc);
        self.tell(before);
        done
    }

    fn list(&mut self, alloc: Global) -> Result<List<Name>, ShelfFault> {
        let before = self.shelf.faults();
        let done = self.shelf.list(alloc);
        self.tell(before);
        done
    }

    fn write_at(&mut self, name: Name, at: u32, bytes: &[u8]) -> Result<(), Failed> {
        let before = self.shelf.faults();
        let done = self.shelf.write_at(name, at, bytes);
        self.tell(before);
        done
    }

    fn sync(&mut self, name: Name) -> Result<(), Failed> {
        let before = self.shelf.faults();
        let done = self.shelf.sync(name);
        self.tell(before);
        done
    }

    fn replace(&mut self, name: Name, bytes: &[u8]) -> Result<(), Failed> {
        let before = self.shelf.faults();
        let done = self.shelf.replace(name, bytes);
        self.tell(before);
        done
    }

    fn remove(&mut self, name: Name) -> Result<(), Failed> {
        let before = self.shelf.faults();
        let done = self.shelf.remove(name);
        self.tell(before);
        done
    }

    fn faults(&self) -> u64 {
        self.shelf.faults()
    }

    ghost counts_now = { λ _ _ _ _ never. never };

    ghost leaves_files = { λ _ never. never };

    ghost only_now = { λ _ _ never _. never };
}
