// The theory of linkages stands in specs/ and proofs/.
#![tactic(auto)]
