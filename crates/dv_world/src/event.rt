use dv_model::Command;

/// What may happen to sessions over one log. One whose condition fails changes nothing.
#[derive(Drop)]
pub enum Event {
    /// A session with this number begins, where the log was published.
    Open(u32),
    /// A session writes what its command writes, received at this time in seconds. It is pending.
    Write(u32, Command, u32),
    /// What is pending is durable: an entry of the log.
    Sync,
    /// What is pending is taken away.
    Heal,
    /// All entries are published.
    Publish,
    /// A session sees what was published, but not past what it wrote itself.
    Load(u32),
    /// A session is answered.
    Tell(u32, Command),
    /// The program ends with so many entries, the pending one perhaps among them.
    Crash(u32),
}
