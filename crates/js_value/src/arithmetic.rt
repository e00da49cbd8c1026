//! The operators on Numbers: whole numbers from -9007199254740991 to 9007199254740991.

ghost use Rattle.std.specs.Prelude.{◌≡◌, ◌&&◌, ℕ, ◌*◌, ◌%◌, ◌^◌, ◌≤◌, unsigned_abs, nat_le, Some, None, if◌then◌else◌};
ghost use Rattle.std.specs.Result.{result_ok};
ghost use Rattle.js_value.specs.Number.{IsNumber, greatest, num, signed, whole, negation, sum, difference, product, quotient, remainder, power, is_below_zero, is_odd};

use crate::Range;

/// The greatest Number, 2 ^ 53 - 1.
pub(crate) const GREATEST: u64 = 9_007_199_254_740_991;

// The whole number itself, where it is in the range.
fn in_range(value: i64) -> Result<i64, Range>
    ensures { result_ok result ≡ num (whole value) }
{
    if value.unsigned_abs() <= GREATEST {
        Ok(value)
    } else {
        Err(Range)
    }
}

/// `a + b` of two Numbers (ECMA-262, 6.1.6.1.7). Range where the sum is no Number.
pub fn add(a: i64, b: i64) -> Result<i64, Range>
    requires first { IsNumber a }
    requires second { IsNumber b }
    ensures { result_ok result ≡ num (sum a b) }
{
    in_range(a + b)
}

/// `a - b` of two Numbers (ECMA-262, 6.1.6.1.8). Range where the difference is no Number.
pub fn sub(a: i64, b: i64) -> Result<i64, Range>
    requires first { IsNumber a }
    requires second { IsNumber b }
    ensures { result_ok result ≡ num (difference a b) }
{
    in_range(a - b)
}

/// `-a` of a Number (ECMA-262, 6.1.6.1.1). Range for zero, whose negation is negative zero.
pub fn neg(a: i64) -> Result<i64, Range>
    requires { IsNumber a }
    ensures { result_ok result ≡ num (negation a) }
{
    if a == 0 {
        return Err(Range);
    }
    Ok(-a)
}

/// `a * b` of two Numbers (ECMA-262, 6.1.6.1.4). Range where the product is no Number or negative zero.
pub fn mul(a: i64, b: i64) -> Result<i64, Range>
    requires first { IsNumber a }
    requires second { IsNumber b }
    ensures { result_ok result ≡ num (product a b) }
{
    if a == 0 && b < 0 || a < 0 && b == 0 {
        return Err(Range);
    }
    match a.checked_mul(b) {
        Some(product) => in_range(product),
        None => Err(Range),
    }
}

/// `a / b` of two Numbers (ECMA-262, 6.1.6.1.5). Range where the quotient isn't whole, negative zero, or
/// where b is 0.
pub fn div(a: i64, b: i64) -> Result<i64, Range>
    requires first { IsNumber a }
    requires second { IsNumber b }
    ensures { result_ok result ≡ num (quotient a b) }
{
    if b == 0 || a % b != 0 || a == 0 && b < 0 {
        return Err(Range);
    }
    Ok(a / b)
}

/// `a % b` of two Numbers, with the sign of a (ECMA-262, 6.1.6.1.6). Range where b is 0, and where a is
/// negative and nothing remains, which is negative zero.
pub fn rem(a: i64, b: i64) -> Result<i64, Range>
    requires first { IsNumber a }
    requires second { IsNumber b }
    ensures { result_ok result ≡ num (remainder a b) }
{
    if b == 0 || a < 0 && a % b == 0 {
        return Err(Range);
    }
    Ok(a % b)
}

/// `a ** b` of two Numbers (ECMA-262, 6.1.6.1.3). Range where the power is no Number; `0 ** 0` is 1.
///
/// It takes at most 53 turns of a loop, whatever b is.
pub fn pow(a: i64, b: i64) -> Result<i64, Range>
    requires first { IsNumber a }
    requires second { IsNumber b }
    ensures { result_ok result ≡ num (power a b) }
{
    let magnitude = magnitude_power(a.unsigned_abs(), b.unsigned_abs())?;
    if b < 0 && magnitude != 1 {
        return Err(Range);
    }
    Ok(with_sign(has_negative_power(a, b), magnitude))
}

fn has_negative_power(a: i64, b: i64) -> bool
    ensures { result ≡ is_below_zero a && is_odd b }
{
    a < 0 && b % 2 != 0
}

fn with_sign(negative: bool, magnitude: u64) -> i64
    requires { magnitude ≤ greatest }
    ensures { result ≡ signed negative magnitude }
{
    if negative {
        -(magnitude as i64)
    } else {
        magnitude as i64
    }
}

fn magnitude_product(a: u64, b: u64) -> Result<u64, Range>
    ensures { result_ok result ≡ (if nat_le (a * b) greatest then Some (a * b) else None) }
{
    match a.checked_mul(b) {
        Some(product) if product <= GREATEST => Ok(product),
        _ => Err(Range),
    }
}

// A power by squaring.
fn magnitude_power(base: u64, exponent: u64) -> Result<u64, Range>
    ensures { result_ok result ≡ (if nat_le (base ^ exponent) greatest then Some (base ^ exponent) else None) }
{
    let mut power = 1;
    let mut square = base;
    let mut left = exponent;
    while left > 1 {
        power = magnitude_product(power, odd_factor(square, left))?;
        square = magnitude_product(square, square)?;
        left /= 2;
    }
    magnitude_product(power, odd_factor(square, left))
}

// The base once, where the exponent is odd.
fn odd_factor(base: u64, exponent: u64) -> u64
    ensures { result ≡ base ^ (exponent % 2) }
{
    if exponent % 2 == 1 { base } else { 1 }
}
