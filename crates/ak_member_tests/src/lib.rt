//! What the crates of addresses, versions, members and rows answer to a caller, and the rules over them
//! that need no more: convergence, and who leads.
#![tactic(auto)]

#[cfg(test)]
mod build;
#[cfg(test)]
mod convergence;
#[cfg(test)]
mod leader;
#[cfg(test)]
mod members;
#[cfg(test)]
mod rows;
#[cfg(test)]
mod spelling;
#[cfg(test)]
mod table;
#[cfg(test)]
mod tally;
#[cfg(test)]
mod unreachable;
#[cfg(test)]
mod version;
