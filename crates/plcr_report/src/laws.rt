//! What the constants of this crate are, as the contract of a function that does nothing.
ghost use Rattle.plcr_report.specs.Constants.{OfHead, OfMessages};

/// The constants are the head of a file, and the numbers of the fields of each message, that the
/// format has.
#[tactic(auto, using(crate::proofs::Constants::of_head, crate::proofs::Constants::of_messages))]
pub fn constants_stand()
    ensures head { OfHead }
    ensures messages { OfMessages }
{}
