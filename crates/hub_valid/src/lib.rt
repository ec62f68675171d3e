//! Valid states of the machine: each reference in one is an object of an actor that is or was live,
//! of a system actor its object 0, and each event names an object and a handle that a packet can
//! name.
//!
//! What `hub_laws` and `hub_authority` both need of a step is in `specs/Lemmas`, which walks
//! through one twice: for any fact that each change keeps of which steps are made (AnyStep), and
//! for validity, which is kept only by steps that are allowed (Hubs). Two families there, on what
//! crosses and on what passes, have one shape.
#![tactic(auto)]

ghost use Rattle.hub_valid.specs.Promises.{BindingIsValid};
ghost use Rattle.hub_valid.specs.Validity.{StaysValid};

/// The state is valid at the beginning, and after each step whose caller saw to its condition; so
/// it is once a reference is bound that isn't barred.
pub fn states_stay_valid()
    ensures stays { StaysValid }
    ensures binding { BindingIsValid }
{}
