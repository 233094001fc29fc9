use dv_apply::Live;
use dv_logfile::LogFile;

/// A mailbox that was opened, at the end of its log.
#[derive(Drop)]
pub struct Chain {
    pub live: Live,
    /// The log file that is written to.
    pub log: LogFile,
    /// The number of the index that the log belongs to, as its header has it.
    pub indexid: u32,
    /// The `initial_modseq` of the log's header.
    pub records: u64,
}
