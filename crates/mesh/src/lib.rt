// What holding, groups, routes and standings mean stands in specs/, their laws in proofs/.
#![tactic(auto)]
