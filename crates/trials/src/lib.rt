// What an instance's actions do to the beliefs, and what comes of a branch: decided on the beliefs and the environment alone.
#![tactic(auto)]

pub mod changes; // belief changes, and lists of actions
pub mod tries; // trying a branch
