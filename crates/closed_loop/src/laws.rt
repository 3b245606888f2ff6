//! A law about the definitions of this crate: the contract of the function is the law.
ghost use Rattle.closed_loop.specs.Laws.{PacketsStay};

/// A packet is sent when it was recorded, if all that it waits for comes as recorded. So if nothing is delayed, nothing moves.
#[tactic(auto, using(crate::proofs::Staying::packets_stay))]
pub fn packets_stay()
    ensures { PacketsStay }
{}
