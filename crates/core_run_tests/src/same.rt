// What tests compare.
use std::fmt::Debug;
use std::process::Abort;

/// Looks that an answer is the wanted one.
pub(crate) fn is_same<T: Copy + PartialEq + Debug>(rt: &impl Abort, answer: T, wanted: T) {
    assert_eq!(rt; answer, wanted);
}
