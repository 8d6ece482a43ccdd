// The operations on fractions of 64 bits. No number of theirs is wider.
ghost use Rattle.std.specs.Prelude.{◌≡◌, ◌≢◌, ◌≤◌, ◌<◌, ◌*◌, ◌*ℤ◌, ◌↔◌, IfOk, IsErr, IsTrue, pos, unsigned_abs};
ghost use Rattle.fractions.specs.Gcd.{gcd as gcd_of};
ghost use Rattle.fractions.specs.Fraction.{reduce, zero_q, ◌+ℚ◌, ◌*ℚ◌};
ghost use Rattle.fractions.specs.Leaves.{TimesLeaves, PlusLeaves};
ghost use Rattle.exact_frac.specs.Units.{IsUnit};
ghost use Rattle.exact_frac.specs.Value64.{value64};
ghost use Rattle.core_sums.specs.Widths.{most64};

use crate::divisors::narrow_gcd;
use crate::narrow_whole::{numbers_product, numbers_sum, product_within, quotient};
use crate::{Exact, Frac64, Left};

/// The exact product, or Left exactly where it leaves.
#[inline(always)]
pub fn product(q: Frac64, r: Frac64) -> Result<Frac64, Left>
    ensures exact { IfOk result (λ p. value64 p ≡ value64 q *ℚ value64 r) }
    ensures left { IsErr result ↔ TimesLeaves most64 (value64 q) (value64 r) }
{
    if q.is_integer() && r.is_integer() {
        return integer_product(q, r);
    }
    if q.is_unit() {
        return Ok(unit_product(q, r));
    }
    if r.is_unit() {
        return Ok(unit_product(r, q));
    }
    crosswise_product(q, r)
}

// 1 or -1 times a fraction.
#[inline(always)]
fn unit_product(unit: Frac64, r: Frac64) -> Frac64
    requires { IsUnit (value64 unit) }
    ensures { value64 result ≡ value64 unit *ℚ value64 r }
{
    if unit.is_negative() { r.negated() } else { r }
}

// The product, for which each numerator is first divided by what it shares with the other
// denominator.
fn crosswise_product(q: Frac64, r: Frac64) -> Result<Frac64, Left>
    ensures exact { IfOk result (λ p. value64 p ≡ value64 q *ℚ value64 r) }
    ensures left { IsErr result ↔ TimesLeaves most64 (value64 q) (value64 r) }
{
    if q.is_zero() || r.is_zero() {
        return Ok(Frac64::of_integer(0));
    }
    let a = q.magnitude();
    let b = q.denominator();
    let c = r.magnitude();
    let d = r.denominator();
    let g = narrow_gcd(a, d);
    let h = narrow_gcd(c, b);
    let num = product_within(quotient(a, g), quotient(c, h))?;
    let den = product_within(quotient(b, h), quotient(d, g))?;
    let negative = q.is_negative() != r.is_negative();
    Ok(Frac64::of_parts(negative, num, den))
}

// The product of whole numbers.
#[inline(always)]
fn integer_product(q: Frac64, r: Frac64) -> Result<Frac64, Left>
    requires first { (value64 q).den ≡ 1 }
    requires second { (value64 r).den ≡ 1 }
    ensures exact { IfOk result (λ p. value64 p ≡ value64 q *ℚ value64 r) }
    ensures left { IsErr result ↔ TimesLeaves most64 (value64 q) (value64 r) }
{
    let number = numbers_product(q.numerator(), r.numerator())?;
    Ok(Frac64::of_integer(number))
}

/// Whether f is the product, where the numbers of both sides crosswise are at most 2^62, and false
/// where one is above. It takes no greatest common divisor.
#[inline(always)]
pub fn is_product(f: Frac64, q: Frac64, r: Frac64) -> bool
    ensures { IsTrue result → value64 f ≡ value64 q *ℚ value64 r }
{
    match crosswise_sides(f, q, r) {
        Ok((left, right)) => left == right,
        Err(Left) => false,
    }
}

// The numerator of f times the product of the denominators, and the product of the numerators
// times the denominator of f.
#[inline(always)]
fn crosswise_sides(f: Frac64, q: Frac64, r: Frac64) -> Result<(i64, i64), Left>
    ensures left { IfOk result (λ s. s.0
        ≡ (value64 f).num *ℤ pos ((value64 q).den * (value64 r).den)) }
    ensures right { IfOk result (λ s. s.1
        ≡ ((value64 q).num *ℤ (value64 r).num) *ℤ pos (value64 f).den) }
{
    let den = product_within(q.denominator(), r.denominator())?;
    let num = numbers_product(q.numerator(), r.numerator())?;
    let left = numbers_product(f.numerator(), den as i64)?;
    let right = numbers_product(num, f.denominator() as i64)?;
    Ok((left, right))
}

/// The exact sum, or Left exactly where it leaves.
#[inline(always)]
pub fn sum(q: Frac64, r: Frac64) -> Result<Frac64, Left>
    ensures exact { IfOk result (λ s. value64 s ≡ value64 q +ℚ value64 r) }
    ensures left { IsErr result ↔ PlusLeaves most64 (value64 q) (value64 r) }
{
    if q.denominator() == r.denominator() {
        return like_sum(q, r);
    }
    if q.is_zero() {
        return Ok(r);
    }
    if r.is_zero() {
        return Ok(q);
    }
    unlike_sum(q, r)
}

// The sum of fractions over one denominator.
#[inline(always)]
fn like_sum(q: Frac64, r: Frac64) -> Result<Frac64, Left>
    requires { (value64 q).den ≡ (value64 r).den }
    ensures exact { IfOk result (λ s. value64 s ≡ value64 q +ℚ value64 r) }
    ensures left { IsErr result ↔ PlusLeaves most64 (value64 q) (value64 r) }
{
    let total = numbers_sum(q.numerator(), r.numerator())?;
    if q.is_integer() {
        return Ok(Frac64::of_integer(total));
    }
    if total == 0 {
        return Ok(Frac64::of_integer(0));
    }
    Ok(reduced(total, q.denominator()))
}

// The sum. Both numerators are brought over the least common multiple of the denominators.
fn unlike_sum(q: Frac64, r: Frac64) -> Result<Frac64, Left>
    requires left_not_zero { value64 q ≢ zero_q }
    requires right_not_zero { value64 r ≢ zero_q }
    ensures exact { IfOk result (λ s. value64 s ≡ value64 q +ℚ value64 r) }
    ensures left { IsErr result ↔ PlusLeaves most64 (value64 q) (value64 r) }
{
    let b = q.denominator();
    let d = r.denominator();
    let g = narrow_gcd(b, d);
    let left_factor = quotient(d, g);
    let right_factor = quotient(b, g);
    let common = product_within(right_factor, d)?;
    let left = scaled(q, left_factor)?;
    let right = scaled(r, right_factor)?;
    let total = numbers_sum(left, right)?;
    // what the sum shares with the common denominator, it shares with g (Henrici 1956)
    let shared = narrow_gcd(total.unsigned_abs(), g);
    Ok(divided(total, common, shared))
}

// The numerator times the factor, or Left exactly where that is above 2^62.
fn scaled(q: Frac64, factor: u64) -> Result<i64, Left>
    requires { factor ≤ most64 }
    ensures exact { IfOk result (λ n. n ≡ (value64 q).num *ℤ pos factor) }
    ensures left { IsErr result ↔ (most64 < unsigned_abs ((value64 q).num *ℤ pos factor)) }
{
    numbers_product(q.numerator(), factor as i64)
}

// n over d in lowest terms.
fn reduced(n: i64, d: u64) -> Frac64
    requires positive { 0 < d }
    requires num_in { unsigned_abs n ≤ most64 }
    requires den_in { d ≤ most64 }
    ensures { value64 result ≡ reduce n d }
{
    divided(n, d, narrow_gcd(n.unsigned_abs(), d))
}

// n over d in lowest terms, where g is their greatest common divisor.
fn divided(n: i64, d: u64, g: u64) -> Frac64
    requires positive { 0 < d }
    requires divisor { g ≡ gcd_of (unsigned_abs n) d }
    requires num_in { unsigned_abs n ≤ most64 }
    requires den_in { d ≤ most64 }
    ensures { value64 result ≡ reduce n d }
{
    Frac64::of_parts(
        n.is_negative(),
        quotient(n.unsigned_abs(), g),
        quotient(d, g),
    )
}
