ghost use Rattle.std.specs.Prelude.{◌≡◌, ◌<◌, ◌%◌, ◌^◌, ◌↔◌, ◌⊎◌, IfSome, IsNone, Some, slice_index};
ghost use Rattle.dv_model.specs.Spelling.{size_code, size_value};

/// The coded size of a record (Dovecot's `mail_index_uint32_to_offset`): seven bits of `n / 4` to
/// a byte, the most significant first, each byte with the bit 0x80.
pub fn size_code(n: u32) -> [u8; 4]
    requires below { n < 2 ^ 30 }
    requires whole { n % 4 ≡ 0 }
    ensures is { result ≡ size_code n }
    ensures back { size_value result ≡ Some n }
{
    let words = n / 4;
    [
        (0x80 + words / 0x20_0000 % 0x80) as u8,
        (0x80 + words / 0x4000 % 0x80) as u8,
        (0x80 + words / 0x80 % 0x80) as u8,
        (0x80 + words % 0x80) as u8,
    ]
}

/// The size that these bytes code (Dovecot's `mail_index_offset_to_uint32`), and None where one of
/// them lacks the bit 0x80: the size isn't written yet.
pub fn size_value(code: [u8; 4]) -> Option<u32>
    ensures is { result ≡ size_value code }
    ensures none { IsNone result ↔ ((slice_index code 0 < 128) ⊎ (slice_index code 1 < 128)
        ⊎ (slice_index code 2 < 128) ⊎ (slice_index code 3 < 128)) }
    ensures back { IfSome result (λ n. (n < 2 ^ 30) × (n % 4 ≡ 0) × (size_code n ≡ code)) }
{
    let [a, b, c, d] = code;
    if a < 0x80 || b < 0x80 || c < 0x80 || d < 0x80 {
        return None;
    }
    let high = u32::from(a - 0x80) * 0x20_0000 + u32::from(b - 0x80) * 0x4000;
    let low = u32::from(c - 0x80) * 0x80 + u32::from(d - 0x80);
    Some(4 * (high + low))
}
