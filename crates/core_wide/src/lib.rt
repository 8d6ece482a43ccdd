//! Sums and products of `i128` that say exactly when a number leaves 128 bits: where its absolute value is above
//! 2^127 - 1. So the least `i128`, whose opposite is no `i128`, counts as outside. [`Numbers`] is a list of such numbers.
#![tactic(auto)]

ghost use Rattle.std.specs.Prelude.{◌≡◌, ◌<◌, ◌+ℤ◌, ◌-ℤ◌, ◌*ℤ◌, neg_ℤ, true, false, FitsSigned, MatchOption};
ghost use mir.Syntax.{w128};
ghost use Rattle.core_sums.specs.Sums.{partial_sums, total};
ghost use Rattle.core_sums.specs.Widths.{any_leaves, IsWithin128};
ghost use Rattle.core_wide.specs.Steps.{AddsEach, Leaves, Stays, with_number, with_product};

mod numbers;

pub use numbers::Numbers;

/// The checked sum.
fn added(x: i128, y: i128) -> Option<i128>
    ensures { MatchOption result (Leaves (x +ℤ y)) (λ sum. (sum ≡ x +ℤ y) × Stays (x +ℤ y)) }
{
    match x.checked_add(y) {
        Some(sum) if sum != i128::MIN => Some(sum),
        _ => None,
    }
}

/// The sum, or None where it is above 2^127 - 1 in absolute value. So it is also a step of a longer sum: one to which
/// the second number is added, or a product that has that value.
pub fn plus(x: i128, y: i128) -> Option<i128>
    ensures value { MatchOption result (Leaves (x +ℤ y)) (λ sum. (sum ≡ x +ℤ y) × Stays (x +ℤ y)) }
    ensures step { result ≡ with_number x y }
    ensures kept { IsWithin128 y → result ≡ with_product x y }
{
    added(x, y)
}

/// The first number less the second, or None where that is above 2^127 - 1 in absolute value.
pub fn minus(x: i128, y: i128) -> Option<i128>
    ensures { MatchOption result (Leaves (x -ℤ y)) (λ rest. (rest ≡ x -ℤ y) × Stays (x -ℤ y)) }
{
    match x.checked_sub(y) {
        Some(rest) if rest != i128::MIN => Some(rest),
        _ => None,
    }
}

/// The product, or None where it is above 2^127 - 1 in absolute value.
pub fn times(x: i128, y: i128) -> Option<i128>
    ensures { MatchOption result (Leaves (x *ℤ y))
        (λ product. (product ≡ x *ℤ y) × Stays (x *ℤ y)) }
{
    match x.checked_mul(y) {
        Some(product) if product != i128::MIN => Some(product),
        _ => None,
    }
}

/// A sum and a product, or None where the product or the new sum is above 2^127 - 1 in absolute value. A factor of 0
/// costs no product.
pub fn plus_product(total: i128, x: i128, y: i128) -> Option<i128>
    ensures { result ≡ with_product total (x *ℤ y) }
{
    if x == 0 {
        return added(total, 0);
    }
    added(total, times(x, y)?)
}

/// A sum less a product, or None where the product or the difference is above 2^127 - 1 in absolute value. A factor of
/// 0 costs no product.
pub fn minus_product(total: i128, x: i128, y: i128) -> Option<i128>
    ensures { result ≡ with_product total (neg_ℤ (x *ℤ y)) }
{
    if x == 0 {
        return added(total, 0);
    }
    minus(total, times(x, y)?)
}

/// The sum after so many steps, of which each is given the sum so far and its own number, from 0 on, and adds its terms
/// to it. None where a step answers None: where one of its numbers or sums is above 2^127 - 1 in absolute value.
pub fn add_each<F: Fn(i128, usize) -> Option<i128>>(
    start: i128,
    count: usize,
    add: F,
) -> Option<i128>
    requires { (sum : _) (i : _) → FitsSigned w128 sum → i < count → F.pre add sum i }
    ensures { AddsEach (F.post add) start count result }
{
    let mut total = start;
    for i in 0..count {
        total = add(total, i)?;
    }
    Some(total)
}

/// The start and all numbers, added from left to right, or None where one of the sums on the way is above 2^127 - 1 in
/// absolute value.
pub fn sum_from(start: i128, numbers: &[i128]) -> Option<i128>
    ensures { MatchOption result (any_leaves (partial_sums start numbers.now) ≡ true)
        (λ whole. (whole ≡ start +ℤ total numbers.now)
        × (any_leaves (partial_sums start numbers.now) ≡ false)) }
{
    let mut total = start;
    for number in numbers {
        total = plus(total, *number)?;
    }
    Some(total)
}
