use dv_model::Bytes;

/// What is got of an id's message.
#[derive(Drop)]
pub enum Got {
    /// The bytes that were saved.
    Held(Bytes),
    /// Its place isn't in its file, or isn't one whole text of a message.
    Damaged,
}
