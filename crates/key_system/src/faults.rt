//! Faults of the ring as those of an engine.

ghost use Rattle.std.specs.Prelude.{◌≡◌, IfOk, IfErr, Ok, Err};
ghost use Rattle.steps.specs.StepFaults.{step_fault_of};

use ring_laws::RingFault;
use steps::{StepFault, step_fault};

// An answer of the ring as one of an engine.
pub(crate) fn stepped<T>(answer: Result<T, RingFault>) -> Result<T, StepFault>
    ensures kept { IfOk answer (λ value. result ≡ Ok value) }
    ensures fault { IfErr answer (λ fault. result ≡ Err (step_fault_of fault)) }
{
    match answer {
        Ok(value) => Ok(value),
        Err(fault) => Err(step_fault(fault)),
    }
}
