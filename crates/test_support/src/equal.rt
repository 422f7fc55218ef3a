//! An assertion of equality. A failure prints the expected and the actual value, and the line of
//! the test or of the helper that uses the macro.
ghost use Rattle.std.specs.Prelude.{◌≡◌, ◌↔◌, true, IsOk, IfErr};

use std::fmt;
use std::fmt::Debug;

/// Two unequal values, and the name of the case in which they were compared.
#[derive(Clone, Copy)]
pub struct Unequal<T: Copy, C: Copy> {
    pub actual: T,
    pub expected: T,
    pub case: C,
}

impl<T: Copy + Debug, C: Copy + Debug> Debug for Unequal<T, C> {
    fn fmt<W: fmt::Write>(&self, f: &mut fmt::Formatter<W>) -> fmt::Result {
        write!(f, "{:?}\n  expected: {:?}", self.case, self.expected)?;
        write!(f, "\n    actual: {:?}", self.actual)
    }
}

/// Returns an error with both values and `case` unless the values are equal.
pub fn check_equal<T: Copy + PartialEq, C: Copy>(
    actual: T,
    expected: T,
    case: C,
) -> Result<(), Unequal<T, C>>
    ensures equal { IsOk result ↔ (T.eq actual expected ≡ true) }
    ensures unequal { IfErr result (λ unequal. (unequal.actual ≡ actual)
        × (unequal.expected ≡ expected) × (unequal.case ≡ case)) }
{
    if actual == expected {
        return Ok(());
    }
    Err(Unequal {
        actual,
        expected,
        case,
    })
}

/// Aborts the test unless two values are equal: `assert_equal!(rt; actual, expected, case)`. Prints
/// the case, the expected value and the actual value.
#[macro_export]
macro_rules! assert_equal {
    ($rt:expr; $actual:expr, $expected:expr, $case:expr $(,)?) => {
        $crate::check_equal($actual, $expected, $case).expect(&$rt, "assertion failed")
    };
}
