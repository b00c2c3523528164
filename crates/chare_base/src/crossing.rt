//! A plan crosses threads: it may be shared among them, and given to another one.

use crate::plan::Plan;

/// Takes a value of a type that may be shared among threads.
pub fn shares<T: Sync>(_value: &T) {}

/// Takes a value of a type that may be given to another thread.
pub fn gives<T: Send + Drop>(_value: T) {}

/// A plan may be shared among threads.
pub fn plan_is_shared(plan: &Plan) {
    shares(plan);
}

/// A plan may be given to another thread.
pub fn plan_is_given(plan: Plan) {
    gives(plan);
}
