/// Why a folder wasn't rebuilt.
#[derive(Clone, Copy, PartialEq, Eq, Debug)]
pub enum RebuildFault {
    /// The disk failed, so often until now. The folder is as it was, or as it is rebuilt.
    Disk(u64),
    /// Memory ran out, or the new log would be too long. The folder is as it was.
    NoMemory,
}
