// The ledger of a calendar and its worst loss.
ghost use Rattle.std.specs.Prelude.{◌≡◌, IfOk};
ghost use Rattle.core_model.specs.Fits.{CalendarFits};

use core_case::{Case, read_case};
use core_case_tests::books::{BOOK, DIP, SWING};
use core_model::{Calendar, Numbers};
use core_replay::{ReplayFault, WorstLoss, replay, worst};
use std::alloc::{AllocError, Global};
use std::test::Fail;

/// The swing's denominator.
const DEN: i128 = 10_000_000_000_000_000_000_000_000;

/// A long future of two tiers, of which the second costs 3 a unit, and a short security with a tier of 2 a unit.
const DEEP: &str = "core,3\nhouse,2024-01-01,2,3\nmarket,MKT\ninstr,IND,future,MKT,1,1,1,0\n\
    instr,BND,security,MKT,1,1,0,0\nlimit,IND,6,6\ntier,IND,3,10,10\nlimit,BND,1,1\ntier,BND,2,5,5\n\
    scenario,DOWN\npath,DOWN,IND,100,90,85,80\npath,DOWN,BND,50,50,51,52\nposition,IND,10\n\
    position,BND,-3\nend\n";

/// Of the future six in tier 1 and two in tier 2 on day 1, and two in tier 1 on day 2; of the security, on day 2, one
/// in tier 1 and two in tier 2. On day 2 the mark of day 1 on ten is paid (-100), the cost of two in tier 2 (-6), and
/// for the security -3 times 51 and the cost of two, -4; on day 3 the mark of day 2 on two (-10).
const TIERED: &[i128] = &[6, 2, 2, 0, 0, 0, 1, 2];

/// What the book closes, by line and day.
const CLOSINGS: &[i128] = &[
    100, 0, 100, 100, 0, 0, 0, 0, 20, 20, 50, 0, 50, 0, 0, 150, 0, 150, 100, 0, 0, 0, 30, 20, 0,
];

/// A case, what is closed of it, a scenario, its totals by house day, and the worst loss of all scenarios with its
/// scenario and day.
const REPLAYED: [(&str, &[i128], usize, &[i128], (i128, usize, u8)); 6] = [
    (DIP, &[10, 10], 0, &[0, 0, -200, -50], (200, 0, 2)),
    (DEEP, TIERED, 0, &[0, 0, -263, -273], (273, 0, 3)),
    (
        BOOK,
        CLOSINGS,
        0,
        &[1000, 1000, 3000, -12000, -14360, -10120, -7420, -15420],
        (15420, 0, 7),
    ),
    (
        BOOK,
        CLOSINGS,
        1,
        &[1000, 1000, -1000, 5000, 16150, 22950, 25650, 17650],
        (15420, 0, 7),
    ),
    (
        BOOK,
        CLOSINGS,
        2,
        &[1000, 1000, 0, -9000, -5240, -120, 2680, -5320],
        (15420, 0, 7),
    ),
    (
        BOOK,
        CLOSINGS,
        3,
        &[1000, 1000, 1000, 1000, 8500, 15000, 18000, 10000],
        (15420, 0, 7),
    ),
];

/// The calendar of a list of amounts over a denominator.
fn calendar_of(alloc: Global, case: &Case, den: i128, amounts: &[i128]) -> Result<Calendar, Fail>
    ensures fits { IfOk result (CalendarFits case.now) }
    ensures den { IfOk result (λ calendar. calendar.den ≡ den) }
{
    let days = usize::from(case.horizon()) * usize::from(case.tiers());
    let count = case.lines().checked_mul(days).ok_or("too many lines")?;
    if den == i128::MIN || amounts.len() != count {
        return Err(Fail::from("another list"));
    }
    let mut list = Numbers::zeros(alloc, count)?;
    for i in 0..count {
        if amounts[i] == i128::MIN {
            return Err(Fail::from("too wide"));
        }
        list.set(i, amounts[i]);
    }
    Ok(Calendar { den, amounts: list })
}

/// The numbers of a list.
fn listed(alloc: Global, numbers: &Numbers) -> Result<Vec<i128>, AllocError> {
    let mut list = Vec::with_capacity(alloc, numbers.len())?;
    for i in 0..numbers.len() {
        list.push(numbers.get(i))?;
    }
    Ok(list)
}

/// The totals of a scenario, and the worst loss of all.
fn replayed(
    alloc: Global,
    text: &str,
    amounts: &[i128],
    scenario: usize,
) -> Result<(Vec<i128>, WorstLoss), Fail> {
    if text.len() > 4_194_304 {
        return Err(Fail::from("too long"));
    }
    let case = read_case(alloc, text.as_bytes())?;
    if scenario >= case.scenarios() {
        return Err(Fail::from("too few scenarios"));
    }
    let calendar = calendar_of(alloc, &case, 1, amounts)?;
    let ledger = replay(alloc, &case, &calendar, scenario)?;
    Ok((
        listed(alloc, &ledger.total)?,
        worst(alloc, &case, &calendar)?,
    ))
}

#[test]
fn calendars_are_replayed(rt: HostRuntime) -> Result<(), Fail> {
    for (text, amounts, scenario, totals, (loss, of, day)) in REPLAYED {
        let (found, worst) = replayed(rt.alloc(), text, amounts, scenario)?;
        assert_eq!(rt; found.as_slice(), totals, "in scenario {scenario}");
        let expected = WorstLoss {
            loss,
            scenario: of,
            day,
        };
        assert_eq!(rt; worst, expected, "in scenario {scenario}");
    }
    Ok(())
}

#[test]
fn a_swing_leaves_128_bits_on_its_day(rt: HostRuntime) -> Result<(), Fail> {
    let alloc = rt.alloc();
    let case = read_case(alloc, SWING.as_bytes())?;
    let calendar = calendar_of(alloc, &case, DEN, &[0, 10 * DEN])?;
    let fault = worst(alloc, &case, &calendar).err();
    assert!(rt;
        fault
            == Some(ReplayFault::TooWide {
                scenario: 0,
                day: 2
            })
    );
    Ok(())
}
