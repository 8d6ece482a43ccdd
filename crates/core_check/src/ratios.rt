// Whether two fractions are the same, without a product that 128 bits may not keep.
ghost use Rattle.std.specs.Prelude.{◌≡◌, pos, ◌*ℤ◌, ◌≤ℤ◌};
ghost use Rattle.std.specs.Ordering.{int_eq};
ghost use Rattle.core_model.specs.Fits.{IsWithin128};

use exact_frac::Frac128;

/// Whether n / d and m / e are the same fraction, compared in lowest terms, without a product.
pub(crate) fn is_same_ratio(n: i128, d: i128, m: i128, e: i128) -> bool
    requires first { IsWithin128 n }
    requires second { IsWithin128 m }
    requires first_den { pos 1 ≤ℤ d }
    requires second_den { pos 1 ≤ℤ e }
    ensures { result ≡ int_eq (n *ℤ e) (m *ℤ d) }
{
    Frac128::of(n, d) == Frac128::of(m, e)
}
