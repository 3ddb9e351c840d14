// A generator of numbers, 'Trial'.
ghost use Rattle.std.specs.Prelude.{◌≡◌};
ghost use Rattle.xs_trial.specs.Generator.{next_state};

const FACTOR: u64 = 6364136223846793005;

const TERM: u64 = 1442695040888963407;

/// The state after one more step.
pub fn next_state(state: u64) -> u64
    ensures { result ≡ next_state state }
{
    state.wrapping_mul(FACTOR).wrapping_add(TERM)
}
