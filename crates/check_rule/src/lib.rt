// Refusal 7: whether bytes are those of a state, in one pass over them.
#![tactic(auto)]
