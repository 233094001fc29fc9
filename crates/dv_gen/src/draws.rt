ghost use Rattle.std.specs.Prelude.{◌≡◌, ◌<◌, ◌^◌};
ghost use Rattle.dv_formats.specs.Generators.{drawn, next_state};

/// Knuth's MMIX: multiplier and increment of a linear congruential generator modulo 2^64.
const MULTIPLIER: u64 = 6_364_136_223_846_793_005;

const INCREMENT: u64 = 1_442_695_040_888_963_407;

fn next_state(state: u64) -> u64
    ensures { result ≡ next_state state }
{
    state.wrapping_mul(MULTIPLIER).wrapping_add(INCREMENT)
}

/// A draw: it moves the state on by Knuth's MMIX generator, and gives its highest 31 bits.
pub fn draw(state: &mut u64) -> u32
    ensures state { state.new ≡ next_state state.old }
    ensures drawn { result ≡ drawn state.new }
    ensures small { result < 2 ^ 31 }
{
    *state = next_state(*state);
    (*state / 2u64.pow(33)) as u32
}
