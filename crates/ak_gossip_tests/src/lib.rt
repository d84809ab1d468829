//! What a gossip and the history of a run answer to a caller: parts given and taken, merges, views.
#![tactic(auto)]

#[cfg(test)]
mod gossip;
#[cfg(test)]
mod history;
#[cfg(test)]
mod parts;
