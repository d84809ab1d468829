//! Ballots, and what a node promised to one (this project's choice: Akka's Cluster Singleton hands over from one oldest member
//! to the next by messages alone).
#![tactic(auto)]

mod ballot;
mod laws;
mod promise;

pub use ballot::Ballot;
pub use laws::{
    answers_are_exact, ballots_are_ordered, floors_only_grow, last_ballots_never_fall,
    promises_bind,
};
pub use promise::{Answer, Promise};
