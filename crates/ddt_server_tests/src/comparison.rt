//! What every test asserts by: each is proved once, and a call of it costs a third of an assertion in its place.

use std::fmt::Debug;
use std::process::Abort;
use std::test::Fail;

/// Fails the test unless it got what it wants. Both are printed, and the case.
pub fn same<T: PartialEq + Debug, C: Debug>(rt: &impl Abort, got: &T, want: &T, case: &C) {
    assert!(rt; got == want, "{got:?} and not {want:?}, of {case:?}");
}

/// Fails the test unless the condition holds. The case is printed.
pub fn holds<C: Debug>(rt: &impl Abort, condition: bool, case: &C) {
    assert!(rt; condition, "of {case:?}");
}

/// What a call gave; None where memory was refused, which must be its only fault.
pub fn given<T, E: PartialEq + Debug + Drop>(
    rt: &impl Abort,
    made: Result<T, E>,
    memory: &E,
) -> Option<T> {
    match made {
        Ok(found) => Some(found),
        Err(fault) => {
            same(rt, &fault, memory, &"the fault");
            None
        }
    }
}

/// Makes calls, and makes all of them once more where memory was refused to one.
pub fn twice<F: Fn() -> Option<()>>(calls: F) -> Result<(), Fail>
    requires { F.IsAlwaysCallable calls }
{
    if calls().is_none() {
        calls().ok_or("memory stays away")?;
    }
    Ok(())
}
