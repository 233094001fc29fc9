ghost use Rattle.std.specs.Prelude.{◌≡◌, ◌≤◌, ◌<◌, ◌^◌, IfSome, MatchOption};
ghost use Rattle.std.specs.Char.{digit_value};
ghost use Rattle.dv_dbox.specs.BoxTexts.{guid_number, hex_number};

use hex::FromHex;

/// The value of a hexadecimal digit of either case.
fn digit_of(b: u8) -> Option<u64>
    ensures { MatchOption result (16 ≤ digit_value b) (λ d. (d ≡ digit_value b) × (d < 16)) }
{
    match b {
        b'0'..=b'9' => Some(u64::from(b - b'0')),
        b'A'..=b'F' => Some(u64::from(b - b'A') + 10),
        b'a'..=b'f' => Some(u64::from(b - b'a') + 10),
        _ => None,
    }
}

/// The number that 1 to `most` hexadecimal digits spell.
pub(crate) fn hex_number(text: &[u8], most: usize) -> Option<u64>
    requires { most ≤ 16 }
    ensures value { result ≡ hex_number most text.now }
    ensures bound { IfSome result (λ n. n < 16 ^ most) }
{
    if text.is_empty() || text.len() > most {
        return None;
    }
    let mut n = 0;
    for b in text {
        let Some(digit) = digit_of(*b) else {
            return None;
        };
        n = n * 16 + digit;
    }
    Some(n)
}

/// The sixteen bytes that 32 hexadecimal digits spell.
pub(crate) fn guid_of(text: &[u8]) -> Option<[u8; 16]>
    ensures { result ≡ guid_number text.now }
{
    <[u8; 16] as FromHex>::from_hex(text).ok()
}
