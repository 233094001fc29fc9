use crate::ends::Next;
use crate::generations::Generations;
use dv_naming::Keeping;

fn is_send<T: Send>() {}

fn generations_are_send<K: Keeping + Send + Sync>() {
    is_send::<Generations<K>>();
}

fn next_is_send<K: Keeping + Send + Sync>() {
    is_send::<Next<K>>();
}
