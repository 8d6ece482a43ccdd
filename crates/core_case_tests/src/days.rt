// House days, open days and pay days.
use core_days::{house_days, open_flags, pay_day};
use jiff::civil::date;
use std::test::Fail;

/// The flags of the worked days in a market that is closed on the third of them.
const FLAGS: [bool; 5] = [true, true, false, true, true];

#[test]
fn house_days_pass_over_weekends_and_holidays(rt: HostRuntime) -> Result<(), Fail> {
    let holidays = [date(2024, 5, 1)];
    let days = house_days(rt.alloc(), date(2024, 4, 26), &holidays, 4)?;
    let expected = [
        date(2024, 4, 26),
        date(2024, 4, 29),
        date(2024, 4, 30),
        date(2024, 5, 2),
        date(2024, 5, 3),
    ];
    assert_eq!(rt; days.as_slice(), expected.as_slice());
    Ok(())
}

#[test]
fn a_market_is_open_on_day_0_and_off_its_holidays(rt: HostRuntime) -> Result<(), Fail> {
    let days = [
        date(2024, 4, 26),
        date(2024, 4, 29),
        date(2024, 4, 30),
        date(2024, 5, 2),
        date(2024, 5, 3),
    ];
    let holidays = [date(2024, 4, 26), date(2024, 4, 30)];
    let flags = open_flags(rt.alloc(), &days, &holidays)?;
    assert_eq!(rt; flags.as_slice(), FLAGS.as_slice());
    Ok(())
}

#[test]
fn a_lag_counts_open_days(rt: HostRuntime) {
    assert_eq!(rt; pay_day(&FLAGS, 1, 1), Some(3));
    assert_eq!(rt; pay_day(&FLAGS, 1, 2), Some(4));
    assert_eq!(rt; pay_day(&FLAGS, 3, 0), Some(3));
    assert_eq!(rt; pay_day(&FLAGS, 4, 1), None);
}

#[test]
fn weekdays_follow_day_numbers_over_decades(rt: HostRuntime) -> Result<(), Fail> {
    let mut day = date(1970, 1, 1);
    for number in 0..18_000u32 {
        let weekday = day.weekday().to_monday_zero_offset() as u32;
        assert_eq!(rt; weekday, (number + 3) % 7, "at {number}");
        day = day.tomorrow()?;
    }
    Ok(())
}
