ghost use Rattle.std.specs.Prelude.{◌≡◌, ◌-◌, ◌^◌, min};

/// Seconds since 1970 as a clock of 32 bits shows them: 4294967295 from the year 2106 on.
pub fn cut_seconds(seconds: u64) -> u32
    ensures { result ≡ min seconds (2 ^ 32 - 1) }
{
    u32::try_from(seconds).unwrap_or(u32::MAX)
}
