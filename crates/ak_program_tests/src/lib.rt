//! The program over ends in memory: what a run comes to, with the words, input and output it is given, and how the actions of a step
//! are printed; a node on the network and the control command; small sweeps, and a table of lines by hand, in which margins are
//! broken and doubles found.
#![tactic(auto)]

#[cfg(test)]
mod control;
#[cfg(test)]
mod driver;
#[cfg(test)]
mod ends;
#[cfg(test)]
mod hostile;
#[cfg(test)]
mod names;
#[cfg(test)]
mod node;
#[cfg(test)]
mod reads;
#[cfg(test)]
mod report;
#[cfg(test)]
mod sweeps;
#[cfg(test)]
mod tables;
