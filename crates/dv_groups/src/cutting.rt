ghost use Rattle.std.specs.Prelude.{◌≡◌, ◌<◌, ◌∷◌, [], IfNone, IfSome, length};
ghost use Rattle.dv_model.specs.Sessions.{pieces};

/// How many items a record of a group has at most.
pub const PIECE: u32 = 65_536;

/// The first piece of a list, and the items behind it. Nothing has no piece.
pub fn next_piece<T>(items: &[T]) -> Option<(&[T], &[T])>
    ensures some { IfSome result (λ cut. pieces items.now ≡ cut.0.now ∷ pieces cut.1.now) }
    ensures shorter { IfSome result (λ cut. length cut.1.now < length items.now) }
    ensures none { IfNone result (pieces items.now ≡ []) }
{
    if items.is_empty() {
        return None;
    }
    Some(items.split_at(items.len().min(PIECE as usize)))
}
