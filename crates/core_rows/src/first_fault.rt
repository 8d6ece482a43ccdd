// The fault where no record of a text is left.
ghost use Rattle.std.specs.Prelude.{◌≡◌, ◌<◌, ◌≤◌, ◌+◌, ◌^◌, IfSome};
ghost use Rattle.core_rows.specs.FirstFault.{missing_after};

/// What is missing after so many sound records, with its number, from 1: `not_begun` where there is none, and
/// `not_ended` after the last of those that do not end.
pub fn missing_after<X: Copy>(
    count: usize,
    has_ended: bool,
    not_begun: X,
    not_ended: X,
) -> Option<(usize, X)>
    requires { count < 2 ^ 31 }
    ensures missing { result ≡ missing_after count has_ended not_begun not_ended }
    ensures number { IfSome result (λ faulty. faulty.0 ≤ count + 1) }
{
    if count == 0 {
        Some((1, not_begun))
    } else if has_ended {
        None
    } else {
        Some((count + 1, not_ended))
    }
}
