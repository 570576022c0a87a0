//! The value of many steps of work, by doubling.
ghost use Rattle.std.specs.Prelude.{◌≡◌};
ghost use Rattle.seq_objects.specs.Spin.{spin_of};

/// The value of `n` steps of work, in time linear in the bits of `n`. One step multiplies by 5 and adds 1; the map of
/// twice as many steps is a map applied twice, which multiplies and adds too.
pub(crate) fn spun(n: u32) -> u32
    ensures { result ≡ spin_of n }
{
    let mut x = n;
    let mut steps = n;
    let mut factor = 5u32;
    let mut addend = 1u32;
    while steps > 0 {
        let odd = steps % 2 == 1;
        if odd {
            x = factor.wrapping_mul(x).wrapping_add(addend);
        }
        addend = factor.wrapping_mul(addend).wrapping_add(addend);
        factor = factor.wrapping_mul(factor);
        steps /= 2;
    }
    x
}
