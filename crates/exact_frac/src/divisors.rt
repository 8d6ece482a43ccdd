// Greatest common divisors: by Euclid's steps down to 64 bits, and there by halvings and differences.
ghost use Rattle.std.specs.Prelude.{◌≡◌, ◌≤◌, ◌<◌, ◌%◌, ◌/◌, ◌^◌};
ghost use Rattle.std.specs.Int.{trailing_zeros, w64};
ghost use Rattle.fractions.specs.Gcd.{gcd as gcd_of};

use crate::whole::NARROW;

/// The greatest common divisor. Once both numbers fit 64 bits, no step takes a division.
pub fn gcd(a: u128, b: u128) -> u128
    ensures value { result ≡ gcd_of a b }
    ensures positive { 0 < b → 0 < result }
{
    if a == 1 || b == 1 {
        return 1;
    }
    if a == b {
        return b;
    }
    let mut x = a;
    let mut y = b;
    while y != 0 {
        if x <= NARROW && y <= NARROW {
            return binary_gcd(x as u64, y as u64) as u128;
        }
        let rest = x % y;
        x = y;
        y = rest;
    }
    x
}

/// The greatest common divisor of numbers of 64 bits.
pub fn narrow_gcd(a: u64, b: u64) -> u64
    requires { 0 < b }
    ensures value { result ≡ gcd_of a b }
    ensures positive { 0 < result }
{
    if a == 1 || b == 1 {
        return 1;
    }
    if a == b {
        return b;
    }
    binary_gcd(a, b)
}

// The factors 2 that both have, times what their odd parts share (Stein 1967).
fn binary_gcd(a: u64, b: u64) -> u64
    requires { 0 < b }
    ensures { result ≡ gcd_of a b }
{
    if a == 0 {
        return b;
    }
    let twos = a.trailing_zeros().min(b.trailing_zeros());
    odd_gcd(odd_part(a), odd_part(b)) << twos
}

// The greatest common divisor of odd numbers: the smaller one and the odd part of the difference
// have the same.
fn odd_gcd(a: u64, b: u64) -> u64
    requires first { a % 2 ≡ 1 }
    requires second { b % 2 ≡ 1 }
    ensures { result ≡ gcd_of a b }
{
    let mut x = a;
    let mut y = b;
    while x != y && y != 1 {
        let difference = x.abs_diff(y);
        y = x.min(y);
        x = odd_part(difference);
    }
    y
}

// The number without its factors 2, which share nothing with an odd number.
fn odd_part(n: u64) -> u64
    requires { 0 < n }
    ensures value { result ≡ n / 2 ^ trailing_zeros w64 n }
    ensures odd { result % 2 ≡ 1 }
    ensures at_most { result ≤ n }
{
    n >> n.trailing_zeros()
}
