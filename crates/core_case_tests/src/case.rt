// Reading a case. The rows of tests/rows show each fault of one, and the least and the greatest numbers.
use crate::books::BOOK;
use core_case::{Case, Kind, Side, read_case};
use jiff::civil::date;
use std::process::Abort;
use std::test::Fail;

/// On which of the house days 0 to 7 something is paid, by the day on which it happens; 9 is none.
fn pay_days(case: &Case, i: usize) -> [u8; 8] {
    let mut days = [9; 8];
    if i < case.instruments() {
        for v in 0..8u8 {
            if v <= case.last() {
                days[v as usize] = case.pays(i, v).unwrap_or(9);
            }
        }
    }
    days
}

/// On which of the days 0 to 7 a line may be closed.
fn allowed_days(case: &Case, l: usize) -> [bool; 8] {
    let mut days = [false; 8];
    if l < case.lines() {
        for u in 0..8u8 {
            if u <= case.last() {
                days[u as usize] = case.allowed(l, u, 1);
            }
        }
    }
    days
}

fn check_calendar(rt: &impl Abort, case: &Case) {
    assert!(rt; case.last() == 7);
    assert!(rt; case.date(0) == date(2024, 4, 29) && case.date(2) == date(2024, 5, 1));
    assert!(rt; case.date(5) == date(2024, 5, 6) && case.date(7) == date(2024, 5, 8));
    assert_eq!(rt; pay_days(case, 0), [1, 3, 9, 4, 5, 6, 7, 9]);
    assert_eq!(rt; pay_days(case, 1), [1, 2, 3, 4, 5, 6, 7, 9]);
    assert_eq!(rt; pay_days(case, 3), [3, 4, 9, 5, 6, 7, 9, 9]);
}

fn check_open_days(rt: &impl Abort, case: &Case) {
    assert!(rt; case.last() == 7);
    assert!(rt; case.instruments() == 5);
    assert!(rt; !case.is_open(0, 2));
    assert!(rt; case.is_open(1, 2));
    assert!(rt; case.is_open(4, 0));
    assert!(rt; case.is_open(4, 3));
}

fn check_closings(rt: &impl Abort, case: &Case) {
    let (no, yes) = (false, true);
    assert_eq!(rt; allowed_days(case, 0), [no, yes, no, yes, yes, yes, no, no]);
    assert_eq!(rt;
        allowed_days(case, 1),
        [no, yes, yes, yes, yes, yes, no, no]
    );
    assert_eq!(rt; allowed_days(case, 3), [no, yes, no, yes, yes, yes, no, no]);
    assert_eq!(rt; allowed_days(case, 4), [no, no, no, yes, yes, yes, no, no]);
}

fn check_book_lines(rt: &impl Abort, case: &Case) {
    assert_eq!(rt; case.lines(), 5);
    let short = case.line(1);
    let bond = case.line(4);
    assert!(rt; short.instrument == 1 && short.side == Side::Position);
    assert!(rt; short.sign == -1 && short.amount == 40);
    assert!(rt; bond.instrument == 4 && bond.side == Side::Collateral);
    assert!(rt; bond.sign == 1 && bond.amount == 50);
}

fn check_pools(rt: &impl Abort, case: &Case) {
    assert!(rt; case.pools() == 1 && case.members() == 2);
    let pool = case.pool(0);
    assert!(rt; pool.name.bytes() == b"EQ".as_slice() && pool.cap == 250);
    let member = case.member(1);
    assert!(rt; member.pool == 0 && member.instrument == 3 && member.weight == 1);
}

fn check_prices(rt: &impl Abort, case: &Case) {
    assert!(rt; case.scenarios() == 4 && case.instruments() == 5 && case.last() == 7);
    assert_eq!(rt; case.scenario(2).bytes(), b"TWIST".as_slice());
    assert!(rt; case.price(0, 0, 7) == 1070 && case.price(2, 2, 1) == 92);
    assert!(rt; case.cash(0) == 1000 && case.cash(1) == 0 && case.cash(7) == -8000);
    assert!(rt; case.horizon() == 5);
    assert!(rt; case.limit(1, 1, 1) == 20 && case.limit(4, 5, 1) == 30);
}

#[test]
fn reads_a_book_of_many_records(rt: HostRuntime) -> Result<(), Fail> {
    assert!(rt; BOOK.len() <= 4_194_304);
    match read_case(rt.alloc(), BOOK.as_bytes()) {
        Ok(case) => {
            check_calendar(&rt, &case);
            check_open_days(&rt, &case);
            check_closings(&rt, &case);
            check_book_lines(&rt, &case);
            check_pools(&rt, &case);
            check_prices(&rt, &case);
            assert!(rt; case.instruments() == 5 && case.instrument(3).kind == Kind::Security);
        }
        Err(fault) => assert!(rt; false, "{fault:?}"),
    }
    Ok(())
}

/// Two futures: one with two tiers that expires on day 2, and one with a single tier that does not expire.
const DEEP: &str = "core,3\nhouse,2024-01-01,3,4\nmarket,MKT\ninstr,IND,future,MKT,1,1,1,2\n\
    instr,TWO,future,MKT,1,3,1,0\nlimit,IND,6,7,8\ntier,IND,3,10,11,12\nlimit,TWO,1,2,3\nscenario,DOWN\n\
    path,DOWN,IND,100,90,85,80,75\npath,DOWN,TWO,1,1,1,1,1\nposition,IND,10\nposition,TWO,2\nend\n";

/// Where a line may be closed, by day from 1 to 3 and tier from 1 to 3.
fn allowed_tiers(case: &Case, l: usize) -> [[bool; 3]; 3] {
    let mut found = [[false; 3]; 3];
    if l < case.lines() && case.last() >= 3 {
        for u in 1..4u8 {
            for j in 1..4u8 {
                found[u as usize - 1][j as usize - 1] = case.allowed(l, u, j);
            }
        }
    }
    found
}

fn check_tiers(rt: &impl Abort, case: &Case) {
    assert!(rt; case.instruments() == 2);
    assert!(rt; case.tiers() == 2 && case.tiers_of(0) == 2 && case.tiers_of(1) == 1);
    assert!(rt; case.cost(0, 1) == 0 && case.cost(0, 2) == 3 && case.cost(1, 2) == 0);
}

fn check_tier_limits(rt: &impl Abort, case: &Case) {
    assert!(rt; case.instruments() == 2);
    assert!(rt; case.horizon() == 3);
    assert_eq!(rt; case.limit(0, 2, 1), 7);
    assert_eq!(rt; case.limit(0, 3, 2), 12);
    assert_eq!(rt; case.limit(1, 3, 2), 0);
}

fn check_expiries(rt: &impl Abort, case: &Case) {
    assert!(rt; case.instruments() == 2);
    assert!(rt; case.instrument(0).expiry == 2 && case.instrument(1).expiry == 0);
    assert!(rt; case.counts(0, 1) && !case.counts(0, 2) && case.counts(1, 2));
}

fn check_open_tiers(rt: &impl Abort, case: &Case) {
    let (no, yes) = (false, true);
    assert_eq!(rt;
        allowed_tiers(case, 0),
        [[yes, yes, no], [yes, no, no], [no, no, no]]
    );
    assert_eq!(rt;
        allowed_tiers(case, 1),
        [[no, no, no], [no, no, no], [yes, no, no]]
    );
}

#[test]
fn tiers_and_expiries_stand_where_the_records_put_them(rt: HostRuntime) -> Result<(), Fail> {
    let case = read_case(rt.alloc(), DEEP.as_bytes())?;
    check_tiers(&rt, &case);
    check_tier_limits(&rt, &case);
    check_expiries(&rt, &case);
    check_open_tiers(&rt, &case);
    Ok(())
}
