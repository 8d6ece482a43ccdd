// What a unit of a line pays, and the fixed cash.
ghost use Rattle.std.specs.Prelude.{◌≡◌};

use crate::books::DIP;
use core_case::{Case, read_case};
use core_flows::{Flows, law_of_units};
use std::test::Fail;

/// A short future whose market is closed on day 2, 2024-01-03.
const INTERRUPTED: &str = "core,1\nhouse,2024-01-01,3,4\nmarket,MKT\nholiday,MKT,2024-01-03\n\
    instr,IND,future,MKT,2,1,1\nlimit,IND,10,10,10\nscenario,DOWN\npath,DOWN,IND,100,90,80,70,60\n\
    position,IND,-20\nend\n";

/// A short security beside fixed cash of the days 0 and 2.
const SHORT: &str =
    "core,1\nhouse,2024-01-01,2,3\nmarket,MKT\ninstr,BND,security,MKT,3,1,1\nlimit,BND,10,10\n\
    scenario,UP\npath,UP,BND,100,110,120,130\nposition,BND,-5\ncash,0,7\ncash,2,-4\nend\n";

/// A future of two tiers that expires on day 2, of which the second costs 3 a unit.
const DEEP: &str = "core,3\nhouse,2024-01-01,2,3\nmarket,MKT\ninstr,IND,future,MKT,2,1,1,2\n\
    limit,IND,6,6\ntier,IND,3,10,10\nscenario,DOWN\npath,DOWN,IND,100,90,85,80\n\
    position,IND,-10\nend\n";

/// What one unit of the first line pays in the first scenario, where its closing in a tier is allowed.
fn first_unit(case: &Case, flows: &Flows, closed: u8, tier: u8, day: u8) -> Option<i128>
    requires { flows.now ≡ case.now }
{
    if case.lines() > 0
        && case.scenarios() > 0
        && closed <= case.last()
        && day <= case.last()
        && case.allowed(0, closed, tier)
    {
        Some(flows.unit(0, 0, closed, tier, day))
    } else {
        None
    }
}

/// The fixed cash up to a house day.
fn fixed_to(case: &Case, flows: &Flows, day: u8) -> Option<i128>
    requires { flows.now ≡ case.now }
{
    if day <= case.last() {
        Some(flows.fixed(day))
    } else {
        None
    }
}

/// A case, the day of a closing of its first line and its tier, a day, and what a unit has paid by then in the first
/// scenario; none where the closing is not allowed.
const PAID: [(&str, u8, u8, u8, Option<i128>); 24] = [
    // A future is marked up to the last price that is paid.
    (DIP, 1, 1, 1, Some(0)),
    (DIP, 1, 1, 2, Some(-10)),
    (DIP, 1, 1, 3, Some(-10)),
    (DIP, 2, 1, 1, Some(0)),
    (DIP, 2, 1, 2, Some(-10)),
    (DIP, 2, 1, 3, Some(5)),
    // A holiday delays what is paid.
    (INTERRUPTED, 1, 1, 2, Some(0)),
    (INTERRUPTED, 1, 1, 3, Some(20)),
    (INTERRUPTED, 1, 1, 4, Some(20)),
    (INTERRUPTED, 3, 1, 3, Some(20)),
    (INTERRUPTED, 3, 1, 4, Some(60)),
    (INTERRUPTED, 2, 1, 4, None),
    // A security sells at the price of its closing.
    (SHORT, 1, 1, 1, Some(0)),
    (SHORT, 1, 1, 2, Some(-330)),
    (SHORT, 2, 1, 2, Some(0)),
    (SHORT, 2, 1, 3, Some(-360)),
    // A tier costs once its closing is paid.
    (DEEP, 1, 1, 1, Some(0)),
    (DEEP, 1, 1, 2, Some(20)),
    (DEEP, 1, 2, 1, Some(0)),
    (DEEP, 1, 2, 2, Some(17)),
    (DEEP, 1, 2, 3, Some(17)),
    (DEEP, 1, 3, 2, None),
    (DEEP, 2, 1, 3, Some(30)),
    (DEEP, 2, 2, 3, None),
];

#[test]
fn a_unit_pays_by_its_closing_and_day(rt: HostRuntime) -> Result<(), Fail> {
    for (text, closed, tier, day, paid) in PAID {
        assert!(rt; text.len() <= 4_194_304);
        let case = read_case(rt.alloc(), text.as_bytes())?;
        let flows = Flows::make(rt.alloc(), &case)?;
        let unit = first_unit(&case, &flows, closed, tier, day);
        assert_eq!(rt;
            unit,
            paid,
            "closed on {closed} in {tier}, by {day}, in {text}"
        );
    }
    Ok(())
}

#[test]
fn fixed_cash_adds_up(rt: HostRuntime) -> Result<(), Fail> {
    let case = read_case(rt.alloc(), SHORT.as_bytes())?;
    let flows = Flows::make(rt.alloc(), &case)?;
    for (day, sum) in [(0, 7), (1, 7), (2, 3), (3, 3)] {
        assert_eq!(rt; fixed_to(&case, &flows, day), Some(sum), "day {day}");
    }
    law_of_units();
    Ok(())
}
