// That no listing is longer than 722,946 bytes is a law about definitions: see specs/. There is no code here.
#![tactic(auto)]
