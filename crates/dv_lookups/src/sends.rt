//! What a thread may carry.
use crate::CacheFile;

fn is_send<T: Send>() {}

fn is_sync<T: Sync>() {}

fn cache_file_is_send() {
    is_send::<CacheFile>();
}

fn cache_file_is_sync() {
    is_sync::<CacheFile>();
}
