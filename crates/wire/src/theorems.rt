//! A function that does nothing: its contract is a theorem about the definitions that the other contracts cite.
ghost use Rattle.wire.specs.Theorems.{WiresExact};

use chip::make::Make;

/// Direct and scripted wires are exactly determined: what each answers and leaves is settled by its state and the request.
#[tactic(auto, using(crate::specs::Directs::direct_exact, crate::specs::Scripteds::scripted_exact))]
pub fn wires_are_exact<M: Make>()
    ensures { WiresExact M.Make.sheet }
{}
