// Document 01's edges as one table: definitions and its proof, in specs/.
#![tactic(auto)]
