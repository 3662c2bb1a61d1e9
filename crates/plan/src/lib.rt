// The plan's bytes: counts and capacities, and joints (routes are read in crate plan_routes), with the tests of
// document 01's refusals 1 to 5.
#![tactic(auto)]

use kinds::Credit;

pub mod counts;
pub mod joints;
pub mod tables;

// The plan's first 45 bits: counts, the slot count and the eight capacities, in the plan's order: of the actives'
// out-queues (aout) and in-queues (ain), of U, Q, F and K, of the passives' in-queues (pin) and out-queues (pout).
#[derive(Clone, Copy, PartialEq, Eq)]
pub struct Head {
    pub routers: usize,
    pub actives: usize,
    pub passives: usize,
    pub slots: u8,
    pub aout: Credit,
    pub ain: Credit,
    pub u: Credit,
    pub q: Credit,
    pub f: Credit,
    pub k: Credit,
    pub pin: Credit,
    pub pout: Credit,
}

// What a router's side is joined to: nothing, a router at one of its sides, an active or a passive interface.
#[derive(Clone, Copy, PartialEq, Eq)]
pub enum Joint {
    Nothing,
    Router(usize, usize),
    Active(usize),
    Passive(usize),
}

// The ports that an interface is joined to: none, one (router times four plus side), or several.
#[derive(Clone, Copy, PartialEq, Eq)]
pub enum Ports {
    Missing,
    One(usize),
    Several,
}
