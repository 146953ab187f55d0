//! The numbers that made threads are drawn from.

ghost use Rattle.std.specs.Prelude.{◌≡◌};
ghost use Rattle.trace_maker.specs.Generator.{drawn, next_state};

/// What a state is multiplied by.
const MULTIPLIER: u128 = 6_364_136_223_846_793_005;

/// What is added then.
const INCREMENT: u128 = 1_442_695_040_888_963_407;

/// States are below this number.
const STATES: u128 = 18_446_744_073_709_551_616;

/// The lower digits of a state aren't drawn: it is divided by this number.
const DRAWN: u64 = 8_589_934_592;

/// The state behind that one.
#[tactic(auto, unfolding(crate::specs::Generator::next_state))]
pub(crate) fn next_state(state: u64) -> u64
    ensures { result ≡ next_state state }
{
    ((u128::from(state) * MULTIPLIER + INCREMENT) % STATES) as u64
}

/// The number that is drawn from a state.
#[tactic(auto, unfolding(crate::specs::Generator::drawn))]
pub(crate) fn drawn(state: u64) -> u64
    ensures { result ≡ drawn state }
{
    state / DRAWN
}
