// That collecting gives rows of a lent table is a law about definitions: see specs/. There is no code here.
#![tactic(auto)]
