// What is read and printed.
mod printing;
mod reading;

use std::fmt::Debug;
use std::process::Abort;

fn same<T: PartialEq + Debug + Drop>(rt: &impl Abort, found: T, want: T) {
    assert_eq!(rt; found, want);
}
