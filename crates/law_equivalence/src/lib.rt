// Demand 3 is a theorem about definitions, stated in specs/Demand3.antt and proved in proofs/Demand3.antt. There is no code here.
#![tactic(auto)]
