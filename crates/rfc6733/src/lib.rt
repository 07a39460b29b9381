// The definition: RFC 6733 and docs/FORMAT.md in specs/, the laws and theorems on it in proofs/. Nothing here runs.
#![tactic(auto)]
