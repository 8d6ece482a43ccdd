// The sign of a fraction.
ghost use Rattle.std.specs.Prelude.{◌≡◌};
ghost use Rattle.core_run.specs.Choice.{is_negative as is_negative_of};

use exact_frac::Exact;

/// Whether a fraction is below 0.
pub fn is_negative<E: Exact>(value: E) -> bool
    ensures { result ≡ is_negative_of (E.value value) }
{
    value.sign() < 0
}
