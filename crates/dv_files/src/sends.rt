//! What a thread may carry.
use crate::{ChainFault, MailFile, Turn, TurnEnd};

fn is_send<T: Send>() {}

fn is_sync<T: Sync>() {}

fn turn_is_send() {
    is_send::<Turn>();
}

fn turn_is_sync() {
    is_sync::<Turn>();
}

fn faults_are_send() {
    is_send::<ChainFault>();
    is_send::<TurnEnd>();
}

fn mail_file_is_send() {
    is_send::<MailFile>();
}

fn mail_file_is_sync() {
    is_sync::<MailFile>();
}
