// The typed views are definitions: see specs/.
#![tactic(auto)]
