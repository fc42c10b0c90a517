// The laws of survey files: no code, see proofs/.
#![tactic(auto)]
