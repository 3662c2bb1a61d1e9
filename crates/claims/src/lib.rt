// The calls on plan bytes and state bytes, as the public contracts will cite them; and demand 3 about them. All of it
// is in specs/.
#![tactic(auto)]
