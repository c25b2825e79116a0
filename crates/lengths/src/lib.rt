// Lengths that cut a buffer into parts which lie end to end: whether they add up to it. Where they do not, the refusal is BadLengths.
#![tactic(auto)]

ghost use Rattle.std.specs.Prelude.{◌≡◌, eqb};
ghost use Rattle.lengths.specs.Sum.{sum};

// Whether the lengths add up to `total`. Each is taken off what is left of it, so no sum can wrap.
pub fn add_up(lengths: &[u64], total: usize) -> bool
    ensures { result ≡ eqb total (sum lengths.now) }
{
    let mut left = total;
    for n in lengths {
        let Some(rest) = left.checked_sub(*n as usize) else {
            return false;
        };
        left = rest;
    }
    left == 0
}
