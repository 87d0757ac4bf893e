//! The generator.

ghost use Rattle.std.specs.Prelude.{◌≡◌, ◌<◌, ◌^◌};
ghost use Rattle.nys_workload.specs.Draws.{draw, next_of};

/// With what the generator's number is multiplied.
pub(crate) const FACTOR: u64 = 6364136223846793005;

/// What is added to it then.
pub(crate) const ADDEND: u64 = 1442695040888963407;

/// By what it is divided before the rest by `m` is drawn, so that its high bits count.
pub(crate) const DIVISOR: u64 = 1 << 33;

/// Draws a number below `m` by the generator's number `x`: its next number, and the one that is drawn.
pub fn draw(x: u64, m: u64) -> (u64, u64)
    requires { 0 < m }
    ensures drawn { result ≡ draw x m }
    ensures below { result.1 < m }
{
    let next = next_of(x);
    (next, next / DIVISOR % m)
}

/// The generator's number after this one.
#[tactic(auto, unfolding(crate::specs::Draws::next_of))]
pub(crate) fn next_of(x: u64) -> u64
    ensures { result ≡ next_of x }
{
    x.wrapping_mul(FACTOR).wrapping_add(ADDEND)
}
