// The laws of the weak pair search: no code, see specs/ and proofs/.
#![tactic(auto)]
