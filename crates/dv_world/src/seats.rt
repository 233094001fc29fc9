ghost use Rattle.std.specs.Prelude.{◌≡◌, nat_eq, position};

use crate::kept::Seat;

/// The place of the session of this number.
pub fn place_of(seats: &[Seat], number: u32) -> Option<usize>
    ensures { result ≡ position (λ seat. nat_eq seat.number number) seats.now }
{
    seats.iter().position(|seat| seat.number == number)
}
