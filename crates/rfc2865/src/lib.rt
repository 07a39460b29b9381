// The definition of RADIUS: RFC 2865, RFC 2866 and docs/FORMAT.md in specs/, the laws and theorems on it in proofs/. Nothing
// here runs; the code above takes its sizes from here.
#![tactic(auto)]

pub mod attribute;
pub mod packet;
