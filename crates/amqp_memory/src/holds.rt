//! Requests for one value: in a box, or for several to hold.

ghost use Rattle.std.specs.Prelude.{◌≡◌, OnErr, IfOk, IfErr};
ghost use Rattle.amqp_memory.specs.Refusal.{SomeRefused};

use std::alloc::{AllocError, AllocFailed, Global};
use std::rc::Rc;

/// A value that several can hold.
#[inline(always)]
#[tactic(auto, unfolding(crate::specs::Refusal::WasRefused))]
pub fn held<T>(alloc: Global, value: T) -> Result<Rc<T>, AllocFailed<T>>
    ensures ok { IfOk result (λ rc. rc.value ≡ value) }
    ensures value_returned { IfErr result (λ e. e.value ≡ value) }
    ensures refused { OnErr result SomeRefused }
{
    Rc::new(alloc, value)
}

/// A value in a box of its own.
#[inline(always)]
#[tactic(auto, unfolding(crate::specs::Refusal::WasRefused))]
pub fn boxed<T>(alloc: Global, value: T) -> Result<Box<T>, AllocFailed<T>>
    ensures ok { IfOk result (λ b. b.value ≡ value) }
    ensures value_returned { IfErr result (λ e. e.value ≡ value) }
    ensures refused { OnErr result SomeRefused }
{
    Box::new(alloc, value)
}

/// Another hold: the request is for a count of the holds.
#[inline(always)]
#[tactic(auto, unfolding(crate::specs::Refusal::WasRefused))]
pub fn hold_again<T: Drop>(rc: &Rc<T>) -> Result<Rc<T>, AllocError>
    ensures ok { IfOk result (λ copy. copy.value ≡ rc.now.value) }
    ensures refused { OnErr result SomeRefused }
{
    rc.clone()
}
