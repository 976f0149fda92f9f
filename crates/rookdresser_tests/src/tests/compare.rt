// As assert_eq! and assert!, with a word that says which comparison it is. A call costs the prover
// less than the macro, each of whose branches it would prove anew in every test.
use std::fmt::Debug;
use std::process::Abort;

pub(crate) fn same<R: Abort, T: PartialEq + Debug + Drop>(rt: &R, which: &str, got: T, want: T) {
    assert_eq!(rt; got, want, "{which}");
}

pub(crate) fn holds<R: Abort>(rt: &R, which: &str, is_so: bool) {
    assert!(rt; is_so, "{which}");
}
