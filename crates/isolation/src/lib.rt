// Demand 3, isolation, with no hypothesis left: the statement is in specs/Isolation.antt, its proof in proofs/Demand3.antt.
#![tactic(auto)]
