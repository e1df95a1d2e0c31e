// Products of 64 bits by 64 bits, and exact quotients.
ghost use Rattle.std.specs.Prelude.{◌≡◌, ◌*◌, ◌^◌, ◌<◌, ◌≤◌, pos, ◌-ℤ◌, ◌*ℤ◌, unsigned_abs};
ghost use Rattle.std.specs.Int.{◌∣◌};
ghost use Rattle.oe_cell.specs.LowestTerms.{floor_quotient};

pub(crate) fn scale(num: i64, by: u64) -> i128
    requires num_fits { unsigned_abs num < 2 ^ 63 }
    requires by_fits { by < 2 ^ 63 }
    ensures value { result ≡ num *ℤ pos by }
    ensures bound { unsigned_abs result < 2 ^ 126 }
{
    i128::from(num) * i128::from(by)
}

pub(crate) fn product(a: i64, b: i64) -> i128
    requires a_fits { unsigned_abs a < 2 ^ 63 }
    requires b_fits { unsigned_abs b < 2 ^ 63 }
    ensures value { result ≡ a *ℤ b }
    ensures bound { unsigned_abs result < 2 ^ 126 }
{
    i128::from(a) * i128::from(b)
}

pub(crate) fn wide_product(a: u64, b: u64) -> u128
    requires a_fits { a < 2 ^ 63 }
    requires b_fits { b < 2 ^ 63 }
    ensures value { result ≡ a * b }
    ensures bound { result < 2 ^ 126 }
{
    u128::from(a) * u128::from(b)
}

/// The number that by goes into without a rest.
pub(crate) fn wide_quotient(num: i128, by: u64) -> i128
    requires some { 0 < by }
    requires divides { by ∣ unsigned_abs num }
    ensures value { result *ℤ pos by ≡ num }
{
    num / i128::from(by)
}

/// What rounding the quotient down leaves of x; it has the sign of y.
pub(crate) fn floor_rest(x: i128, y: i128) -> i128
    requires x_fits { unsigned_abs x < 2 ^ 126 }
    requires y_fits { unsigned_abs y < 2 ^ 126 }
    requires some { 0 < unsigned_abs y }
    ensures { result ≡ x -ℤ floor_quotient x y *ℤ y }
{
    if y > 0 {
        return x.rem_euclid(y);
    }
    let rest = (-x).rem_euclid(-y);
    -rest
}
