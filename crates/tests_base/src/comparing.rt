use std::fmt::Debug;
use std::process::Abort;

// A test is a row of calls of small functions. These fail the test themselves, so no way out opens
// in it.

// Fails the test where the two differ.
pub(crate) fn same<T: PartialEq + Debug + Drop>(rt: &impl Abort, left: T, right: T) {
    assert_eq!(*rt; left, right);
}

// Fails the test where this is not so.
pub(crate) fn holds(rt: &impl Abort, is_so: bool) {
    assert!(*rt; is_so);
}
