//! Words of 32 bits: what the bitwise operators, `Math.imul` and `Math.clz32` do.

ghost use Rattle.std.specs.Prelude.{◌≡◌, ◌<◌, ◌≤◌, ◌^◌};
ghost use Rattle.js_value.specs.Number.{IsNumber};
ghost use Rattle.js_value.specs.Word.{to_int32, to_uint32, shift_count, left_shift, signed_right_shift, unsigned_right_shift, word_product, leading_zero_bits};

const MODULUS: i64 = 0x1_0000_0000;

/// The residue of a whole number from 0 to 2 ^ 32 - 1 (ECMA-262, 7.1.7).
pub fn to_uint32(a: i64) -> u32
    ensures { result ≡ to_uint32 a }
{
    a.rem_euclid(MODULUS) as u32
}

/// The residue of a whole number from -2 ^ 31 to 2 ^ 31 - 1 (ECMA-262, 7.1.6).
pub fn to_int32(a: i64) -> i32
    ensures { result ≡ to_int32 a }
{
    to_uint32(a).cast_signed()
}

fn shift_count(b: i64) -> u32
    ensures count { result ≡ shift_count b }
    ensures bound { result < 32 }
{
    to_uint32(b) % 32
}

fn power_of_two(exponent: u32) -> u32
    requires { exponent < 32 }
    ensures value { result ≡ 2 ^ exponent }
    ensures bound { result ≤ 2 ^ 31 }
{
    1 << exponent
}

/// `a << b` (ECMA-262, 6.1.6.1.9).
pub fn shl(a: i64, b: i64) -> i64
    ensures { result ≡ left_shift a b }
{
    let shifted = i64::from(to_int32(a)) * i64::from(power_of_two(shift_count(b)));
    i64::from(to_int32(shifted))
}

/// `a >> b`, which copies the sign (ECMA-262, 6.1.6.1.10).
pub fn sar(a: i64, b: i64) -> i64
    ensures { result ≡ signed_right_shift a b }
{
    i64::from(to_int32(a) >> shift_count(b))
}

/// `a >>> b` (ECMA-262, 6.1.6.1.11).
pub fn shr(a: i64, b: i64) -> i64
    ensures { result ≡ unsigned_right_shift a b }
{
    i64::from(to_uint32(a) >> shift_count(b))
}

/// `Math.imul(a, b)` (ECMA-262, 21.3.2.19).
pub fn imul(a: i64, b: i64) -> i64
    ensures { result ≡ word_product a b }
{
    i64::from(to_uint32(a).wrapping_mul(to_uint32(b)).cast_signed())
}

/// `Math.clz32(a)`, from 0 to 32 (ECMA-262, 21.3.2.11).
pub fn clz32(a: i64) -> i64
    ensures { result ≡ leading_zero_bits a }
{
    i64::from(to_uint32(a).leading_zeros())
}
