// What is answered of a step.

use crate::stores::Store;
use crate::values::Failure;
use pk_ctypes::IntType;

/// What a step answers.
#[derive(Drop)]
pub enum GraphStep {
    /// The point where the edge leads to, and the store there.
    To(usize, Store),
    Faulted(Failure),
    /// A guard doesn't pass.
    Blocked,
    /// Any numbers are taken, and those given aren't as many of the type.
    Wants(IntType, usize),
}
