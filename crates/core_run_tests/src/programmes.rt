// Programmes written out as numbers: rows with their bounds.

/// A share sold on two days in two scenarios: its columns are what is closed on day 1 and on day 2, and the loss.
pub const TWO_SCENARIOS: [([i64; 3], i64); 10] = [
    ([1, 1, 0], 1),
    ([-1, -1, 0], -1),
    ([1, 0, 0], 1),
    ([0, 1, 0], 1),
    ([-8, 0, -1], 0),
    ([-8, -2, -1], 0),
    ([-8, -2, -1], -10),
    ([-3, 0, -1], 0),
    ([-3, -6, -1], 0),
    ([-3, -6, -1], -10),
];
