// Refusal 7 on the abstract state: its test, and that it finds exactly the states. All of it is in specs/.
#![tactic(auto)]
