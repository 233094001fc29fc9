use crate::taking::Taken;

fn is_send<T: Send>() {}

fn taken_is_send() {
    is_send::<Taken>();
}
