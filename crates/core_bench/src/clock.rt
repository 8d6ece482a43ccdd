// The processor time that work takes.
use std::hint::black_box;
use std::time::Duration;

/// The nanoseconds between two times, where the answer of what was done between them is taken in so that it is not left
/// out.
pub fn spent(start: Duration, end: Duration, answer: u128) -> u128 {
    let nanoseconds = end.saturating_sub(start).as_nanos();
    if black_box(answer) == 1 {
        nanoseconds | 1
    } else {
        nanoseconds
    }
}
