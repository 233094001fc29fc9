ghost use Rattle.std.specs.Prelude.{◌≡◌};
ghost use Rattle.dv_model.specs.Sessions.{missing_number};

use dv_model::Command;
use dv_sets::missing_end;
use dv_view::View;

/// The first message number of the command that the view lacks.
pub fn missing_number(c: &Command, view: &View) -> Option<u32>
    ensures { result ≡ missing_number c.now view.now }
{
    let count = view.rows().len() as u32;
    match c {
        Command::Fetch {
            by_uid: false,
            set,
            ..
        } => missing_end(set.as_slice(), count),
        Command::Store {
            by_uid: false,
            set,
            ..
        } => missing_end(set.as_slice(), count),
        _ => None,
    }
}
