//! The work of a leaf without a call.
ghost use Rattle.std.specs.Prelude.{◌≡◌};
ghost use Rattle.seq_objects.specs.Spin.{spin_of};

/// The value of `n` steps of work: `x` starts as `n`, and each step replaces it by `5 * x + 1` modulo 2^32.
///
/// Memory: none. Time: `n` steps.
pub fn spin(n: u32) -> u32
    ensures { result ≡ spin_of n }
{
    let mut x = n;
    for _ in 0..n {
        x = x.wrapping_mul(5).wrapping_add(1);
    }
    x
}
