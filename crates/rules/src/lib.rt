// The rules of document 01 on an abstract state, the conditions of its refusals, and runs that evaluate the rules:
// all of it in specs/. There is no code here.
#![tactic(auto)]
