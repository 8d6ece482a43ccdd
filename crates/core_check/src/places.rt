// The places of a condition, one after the other.
ghost use Rattle.std.specs.Prelude.{◌≡◌, ◌+◌, ◌^◌, ◌<◌, ◌≤◌};
ghost use Rattle.core_model.specs.Layout.{amount_count, scenario_count};
ghost use Rattle.core_check.specs.Answers.{ChecksEach, answer_at};

use crate::fault::CheckFault;
use core_book::Case;
use core_model::Condition;

/// How many closings a case has, by line, day and tier: at most 64 lines, 20 days and 4 tiers.
pub(crate) fn closing_count(case: &Case) -> usize
    ensures value { result ≡ amount_count case.now }
    ensures few { result ≤ 5120 }
{
    let days = case.lines() * usize::from(case.horizon());
    days * usize::from(case.tiers())
}

/// How many losses a case has, by scenario and house day: at most 64 scenarios and 41 days.
pub(crate) fn loss_count(case: &Case) -> usize
    ensures value { result ≡ scenario_count case.now }
    ensures few { result ≤ 2624 }
{
    case.scenarios() * (usize::from(case.last()) + 1)
}

/// The answer of a place, by whether it holds, where None says that a number of it leaves 128 bits.
pub(crate) fn judge_place(
    condition: Condition,
    place: u32,
    holds: Option<bool>,
) -> Result<(), CheckFault>
    ensures { result ≡ answer_at condition place holds }
{
    let condition = condition.number();
    match holds {
        Some(true) => Ok(()),
        Some(false) => Err(CheckFault::No { condition, place }),
        None => Err(CheckFault::TooWide { condition, place }),
    }
}

/// Goes through so many places of a condition, of which the first has the number `first`, up to the first that does not
/// hold or of which a number leaves 128 bits. `holds` answers None where one does.
pub(crate) fn check_each<F: Fn(usize) -> Option<bool>>(
    condition: Condition,
    first: u32,
    count: usize,
    holds: F,
) -> Result<(), CheckFault>
    requires callable { (i : _) → i < count → F.pre holds i }
    requires room { first + count ≤ 2 ^ 32 }
    ensures { ChecksEach (F.post holds) condition first count result }
{
    for i in 0..count {
        judge_place(condition, first + i as u32, holds(i))?;
    }
    Ok(())
}
