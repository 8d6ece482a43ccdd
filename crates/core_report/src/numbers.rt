// The numbers of a list by place.
ghost use Rattle.std.specs.Prelude.{◌≡◌, ◌<◌, length};
ghost use Rattle.core_sums.specs.Places.{at};

use core_model::Numbers;

/// The number at a place.
pub(crate) fn number(numbers: &Numbers, place: usize) -> i128
    requires { place < length numbers.now }
    ensures { result ≡ at numbers.now place }
{
    numbers.get(place)
}
