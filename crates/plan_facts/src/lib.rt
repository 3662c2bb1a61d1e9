// What the tests of a plan's bytes tell: the links from the computed tests to the plan rules of document 01. All of
// it is in specs/.
#![tactic(auto)]
