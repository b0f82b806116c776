//! Places at which a test can hold a thread up.

use std::sync::Wait;

/// A place in the delivery of an order to a bank. The number is the account's shard, 0 to 15.
#[derive(Clone, Copy, Debug, PartialEq, Eq)]
pub enum Point {
    /// The lock of that shard is held.
    Inside(u8),
    /// The bank's answer stands in the history.
    Answered(u8),
}

/// What is passed at each such place. A gate tells nothing, and may hold its caller up for as long
/// as it likes.
pub trait Gate {
    /// Passes a place.
    fn pass<R: Wait>(&self, rt: &R, point: Point);
}

/// A gate at which nobody waits.
#[derive(Clone, Copy, Debug)]
pub struct OpenGate;

impl Gate for OpenGate {
    fn pass<R: Wait>(&self, _rt: &R, _point: Point) {}
}
