ghost use Rattle.core_days.specs.Laws.{HouseDayCounts, PayDayIsLeast, PayDayStandsOnDaysAfter, PayDayWhereAllOpen};

/// The law of house days: the function answers exactly the date of the relation.
pub fn house_day_law()
    ensures { HouseDayCounts }
{}

/// The laws of pay days: the function answers exactly the least day of the relation, looks at no day but those after
/// the day that is paid for and up to the last one, and where all of these are open adds the lag.
pub fn pay_day_law()
    ensures least { PayDayIsLeast }
    ensures days_after { PayDayStandsOnDaysAfter }
    ensures all_open { PayDayWhereAllOpen }
{}
