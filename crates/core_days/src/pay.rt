ghost use Rattle.std.specs.Prelude.{◌≡◌, ◌-◌, ◌<◌, ◌≤◌, suc, length, IsTrue};
ghost use Rattle.core_days.specs.Days.{pay_day as pay_day_of};
ghost use Rattle.core_days.specs.Flags.{flag_at};
ghost use Rattle.core_days.specs.Limits.{most_house_days};

/// The house day on which a flow of the open day `v` is paid, `lag` open days of its market later.
///
/// The flags say on which house days the market is open, from day 0 to the last one. The answer is the least day
/// w from v on such that exactly `lag` of the days v + 1 to w are open, and `None` where the flags end before.
pub fn pay_day(flags: &[bool], v: u8, lag: u8) -> Option<u8>
    requires in_range { v < length flags.now }
    requires from_open { IsTrue (flag_at flags.now v) }
    requires few { length flags.now ≤ suc most_house_days }
    ensures { result ≡ pay_day_of (flag_at flags.now) (length flags.now - 1) lag v }
{
    let mut left = lag;
    if left == 0 {
        return Some(v);
    }
    for w in v + 1..flags.len() as u8 {
        if flags[w as usize] {
            left -= 1;
            if left == 0 {
                return Some(w);
            }
        }
    }
    None
}
