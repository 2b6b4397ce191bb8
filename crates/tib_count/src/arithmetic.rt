// Counts that are added and multiplied.
ghost use Rattle.std.specs.Prelude.{◌≡◌, ℕ, ◌+◌, ◌*◌, ◌<◌};
ghost use Rattle.tib_cost.specs.Semiring.{most};
ghost use Rattle.tib_count.specs.Counts.{counted};

use crate::count::Count;
use tib_cost::MOST;

/// A number as a count, in constant time.
pub fn number(n: u64) -> Count
    ensures { result ≡ counted n }
{
    if n <= MOST {
        Count::Number(n)
    } else {
        Count::Many
    }
}

/// The sum of two numbers, in constant time.
pub fn plus(a: Count, b: Count) -> Count
    ensures { (m n : ℕ) → a ≡ counted m → b ≡ counted n → result ≡ counted (m + n) }
{
    match (a, b) {
        (Count::Number(m), Count::Number(n)) => m.checked_add(n).map_or(Count::Many, number),
        _ => Count::Many,
    }
}

/// The product with a number above the greatest cost.
fn many_times(n: u64) -> Count
    ensures { (m : ℕ) → most < m → result ≡ counted (n * m) }
{
    if n == 0 {
        Count::Number(0)
    } else {
        Count::Many
    }
}

/// The product of two numbers, in constant time.
pub fn times(a: Count, b: Count) -> Count
    ensures { (m n : ℕ) → a ≡ counted m → b ≡ counted n → result ≡ counted (m * n) }
{
    match (a, b) {
        (Count::Number(m), Count::Number(n)) => m.checked_mul(n).map_or(Count::Many, number),
        (Count::Number(m), _) => many_times(m),
        (_, Count::Number(n)) => many_times(n),
        _ => Count::Many,
    }
}
