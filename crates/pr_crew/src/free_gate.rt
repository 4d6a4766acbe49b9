// A gate that is always open.
use crate::Gate;
use std::sync::Wait;

/// Lets each job go on at once.
#[derive(Clone, Copy, Debug, Default)]
pub struct FreeGate;

impl Gate for FreeGate {
    fn reached<R: Wait>(&self, _rt: &R, _line: u64) {}
}
