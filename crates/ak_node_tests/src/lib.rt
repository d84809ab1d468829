//! What a node does with an event, and the numbers that its membership keeps.
#![tactic(auto)]

#[cfg(test)]
mod membership;
#[cfg(test)]
mod node;
