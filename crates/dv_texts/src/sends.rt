//! What a thread may carry.
use crate::ReplyText;

fn is_send<T: Send>() {}

fn is_sync<T: Sync>() {}

fn reply_text_is_send() {
    is_send::<ReplyText>();
}

fn reply_text_is_sync() {
    is_sync::<ReplyText>();
}
