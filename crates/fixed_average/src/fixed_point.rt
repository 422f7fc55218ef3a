//! Fixed-point arithmetic, as in the kernel's `calc_load` and `fixed_power_int`.
//!
//! A fixed-point number has 11 fractional bits: 2048 represents 1.
ghost use Rattle.std.specs.Prelude.{◌≡◌, ◌≤◌};
ghost use Rattle.pressure_spec.specs.Average as model;

/// The fixed-point number that represents 1.
const ONE: u64 = 2048;

/// Returns the average `a` after a period with the sample `x`. `e` is the decay factor. The result
/// is rounded up if `x >= a`, and down if `x < a`, as in the kernel's `calc_load`.
pub fn load(a: u64, e: u64, x: u64) -> u64
    requires average { a ≤ 204800 }
    requires factor { e ≤ 2048 }
    requires active { x ≤ 204800 }
    ensures value { result ≡ model.load a e x }
    ensures most { result ≤ 204800 }
{
    let sum = a * e + x * (ONE - e);
    if x >= a {
        (sum + (ONE - 1)) / ONE
    } else {
        sum / ONE
    }
}

/// Returns the product of two fixed-point numbers of at most 1, rounded to the nearest number.
fn product(x: u64, y: u64) -> u64
    requires left { x ≤ 2048 }
    requires right { y ≤ 2048 }
    ensures value { result ≡ model.product x y }
    ensures most { result ≤ 2048 }
{
    (x * y + ONE / 2) / ONE
}

/// Returns the fixed-point number `x` to the power `n`. Each multiplication rounds its result, as
/// in the kernel's `fixed_power_int`.
pub fn power(x: u64, n: u64) -> u64
    requires { x ≤ 2048 }
    ensures value { result ≡ model.power x n }
    ensures most { result ≤ 2048 }
{
    let mut result = ONE;
    let mut base = x;
    let mut rest = n;
    'digits: while rest > 0 {
        if rest % 2 == 1 {
            result = product(result, base);
        }
        rest /= 2;
        base = product(base, base);
    }
    result
}
