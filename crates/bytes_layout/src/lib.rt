// The state's bytes: where each part of the state stands, and the way there and back. All of it is in specs/.
#![tactic(auto)]
