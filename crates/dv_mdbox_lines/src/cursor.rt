//! What is left of a script.

ghost use Rattle.std.specs.Prelude.{◌≡◌, true};
ghost use Rattle.dv_mdbox_lines.specs.Scripts.{is_good};

/// The calls of a script without a fault, each read when it is asked for.
#[derive(Drop)]
pub struct Calls<'a> {
    /// What is left of the script.
    pub(crate) rest: &'a [u8],
    ghost good: { is_good rest.now ≡ true },
}
