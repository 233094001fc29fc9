ghost use Rattle.std.specs.Prelude.{◌≡◌, ◌≤◌, length, option_map};
ghost use Rattle.dv_model.specs.declared.types.Group.{Group};
ghost use Rattle.dv_model.specs.Sessions.{is_log_full, limit_of, message_of};
ghost use Rattle.dv_model.specs.Spelling.{group_text};
ghost use Rattle.dv_groups.specs.Limits.{reply_of};

use dv_model::{Command, Mark};
use dv_responses::is_append;
use dv_view::Live;

/// A limit that a command meets (RFC 5530, LIMIT).
#[derive(Clone, Copy, PartialEq, Eq, Debug)]
pub enum Limit {
    /// No UID is left.
    UidsUsedUp,
    /// The message or the group has so many bytes, which are too many.
    TooLong { bytes: u64 },
}

// 32 MiB.
const MESSAGE_LIMIT: u64 = 33_554_432;

// 64 MiB.
const GROUP_LIMIT: u64 = 67_108_864;

// The longest log, but for its closed place.
const LOG_LIMIT: u64 = 1_073_741_820;

const LAST_FILE_SEQ: u32 = 4_294_967_295;

// The UIDNEXT behind the largest UID.
const END_OF_UIDS: u32 = 4_294_967_295;

// Whether so many bytes don't fit behind the log's end, and no new file can be begun for them.
fn is_log_full(rotates: bool, mark: Mark, size: u64) -> bool
    requires { size ≤ 67108864 }
    ensures { result ≡ is_log_full rotates mark size }
{
    let can_rotate = rotates && mark.file_seq < LAST_FILE_SEQ;
    !can_rotate && u64::from(mark.offset) + size > LOG_LIMIT
}

// The length of the message of an APPEND.
fn message_length(c: &Command) -> u64
    ensures { result ≡ length (message_of c.now) }
{
    match c {
        Command::Append { message, .. } => message.len() as u64,
        _ => 0,
    }
}

/// The limit that a command meets first, where its group has so many bytes, the log ends at this
/// mark, and a long file is rotated or isn't. Takes no memory.
pub fn limit_of(c: &Command, live: &Live, rotates: bool, mark: Mark, size: u64) -> Option<Limit>
    ensures { (group : Group) → length (group_text group) ≡ size
        → option_map reply_of result ≡ limit_of c.now live.now.mailbox rotates mark group }
{
    if is_append(c) && live.next_uid() == END_OF_UIDS {
        return Some(Limit::UidsUsedUp);
    }
    let message = message_length(c);
    if message > MESSAGE_LIMIT {
        return Some(Limit::TooLong { bytes: message });
    }
    if size > GROUP_LIMIT || is_log_full(rotates, mark, size) {
        return Some(Limit::TooLong { bytes: size });
    }
    None
}
