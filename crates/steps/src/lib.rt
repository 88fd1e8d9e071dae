//! Limits, and why what is done step by step gives nothing.
//!
//! `limits.rt` names the limits with their numbers; `faults.rt` says why a tree stands for no term and why an engine gives no answer. What
//! steps are, and what an answer says of them, is in `specs/`.
#![tactic(auto)]

mod faults;
mod limits;

pub use faults::{StepFault, TermFault, fault_at, step_fault};
pub use limits::LimitName;
