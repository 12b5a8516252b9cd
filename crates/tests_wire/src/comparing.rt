// How these tests fail. A test is rows of data and calls of small functions. They say nothing of
// what they give, so the tests carry no facts of what they call, and they fail the test themselves,
// so no way out opens in the tests.
use std::fmt::{Debug, Display};
use std::process::Abort;

// Fails the test where the two differ.
pub(crate) fn same<T: PartialEq + Debug + Drop>(rt: &impl Abort, left: T, right: T) {
    assert_eq!(*rt; left, right);
}

// The same, and says where.
pub(crate) fn same_at<T: PartialEq + Debug + Drop>(
    rt: &impl Abort,
    at: &impl Display,
    left: T,
    right: T,
) {
    assert_eq!(*rt; left, right, "{at}");
}

// Fails the test where this is not so.
pub(crate) fn holds(rt: &impl Abort, is_so: bool) {
    assert!(*rt; is_so);
}

// Puts other bytes in some places.
pub(crate) fn change(bytes: &mut [u8], changes: &[(usize, u8)]) {
    for (place, byte) in changes {
        if *place < bytes.len() {
            bytes[*place] = *byte;
        }
    }
}

// So many of the first bytes.
pub(crate) fn front(bytes: &[u8], size: usize) -> &[u8] {
    bytes.get(..size).unwrap_or(bytes)
}
