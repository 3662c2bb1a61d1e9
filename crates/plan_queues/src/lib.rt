// Queues by name and number, and which queue feeds which: definitions alone.
#![tactic(auto)]
