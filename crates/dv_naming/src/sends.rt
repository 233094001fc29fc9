use crate::names::Names;

fn is_send<T: Send>() {}

fn names_are_send() {
    is_send::<Names>();
}
