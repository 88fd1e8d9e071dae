//! What a run writes.

use crate::status::Status;

/// What a command writes of the bytes that it has read, and the status with which the run then ends.
#[derive(Drop)]
pub(crate) struct Output {
    pub(crate) text: Vec<u8>,
    pub(crate) status: Status,
}
