use crate::listings::{Leaf, Roll};
use crate::pass::{FrontWord, Pass};
use crate::pen::Pen;

fn is_send<T: Send>() {}

fn pen_is_send() {
    is_send::<Pen>();
}

fn pass_is_send() {
    is_send::<Pass>();
}

fn front_word_is_send() {
    is_send::<FrontWord>();
}

fn roll_is_send() {
    is_send::<Roll>();
}

fn leaf_is_send() {
    is_send::<Leaf>();
}
