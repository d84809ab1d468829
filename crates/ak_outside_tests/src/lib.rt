//! The outside: where bytes come from and go to, and the lines of an input; and of a real node its command line, its configuration, its
//! folder, link and clock, and envelopes over a link.
#![tactic(auto)]

#[cfg(test)]
mod configurations;
#[cfg(test)]
mod edges;
#[cfg(test)]
mod envelopes;
#[cfg(test)]
mod lines;
#[cfg(test)]
mod memory;
#[cfg(test)]
mod options;
#[cfg(test)]
mod sockets;
#[cfg(test)]
mod streams;
