ghost use Rattle.std.specs.Prelude.{◌≡◌, ◌<◌, IfSome, length, nat_eq, not, position};
ghost use Rattle.std.specs.List.{list_any};
ghost use Rattle.dv_model.specs.Views.{same_row};
ghost use Rattle.dv_view.specs.Orders.{AreRising};

use dv_model::Shown;

/// The place of the row with this UID, found by halves.
pub fn place_of(rows: &[Shown], uid: u32) -> Option<usize>
    requires { AreRising rows.now }
    ensures is { result ≡ position (λ s. nat_eq s.uid uid) rows.now }
    ensures inside { IfSome result (λ at. at < length rows.now) }
{
    let at = rows.partition_point(|s| s.uid < uid);
    if at >= rows.len() {
        return None;
    }
    if rows[at].uid != uid {
        return None;
    }
    Some(at)
}

/// Whether one of the rows has this UID.
pub fn shows(rows: &[Shown], uid: u32) -> bool
    requires { AreRising rows.now }
    ensures { result ≡ list_any (λ s. nat_eq s.uid uid) rows.now }
{
    place_of(rows, uid).is_some()
}

/// Whether the two have the same UID, flags and keywords.
pub fn same_row(a: &Shown, b: &Shown) -> bool
    ensures { result ≡ same_row a.now b.now }
{
    a.uid == b.uid && a.flags == b.flags && a.keywords.as_slice() == b.keywords.as_slice()
}

/// Whether a session that knows the old rows is told of this one: it is new or changed.
pub fn is_told(old: &[Shown], s: &Shown) -> bool
    requires { AreRising old.now }
    ensures { result ≡ not (list_any (same_row s.now) old.now) }
{
    match place_of(old, s.uid) {
        Some(at) => !same_row(s, &old[at]),
        None => true,
    }
}
