// Laws that no crate of the network owns: choices, folds over numbers, tests, pigeonhole, walks and rings. All of it
// is in specs/.
#![tactic(auto)]
