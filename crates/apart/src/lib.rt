// Demand 3, isolation: theorems only. The statement is in specs/Reach.antt and specs/Demand3.antt, the proofs are in proofs/.
#![tactic(auto)]
