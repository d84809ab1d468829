//! What is read and written. Datagrams and their fields: each kind, whole, cut short and spoiled, and as the release before this
//! one wrote it. The lines of a schedule; the events that a generator gives, beside events that were drawn by hand from the rules;
//! and workers that go side by side.
#![tactic(auto)]

#[cfg(test)]
mod bytes;
#[cfg(test)]
mod datagram;
#[cfg(test)]
mod fields;
#[cfg(test)]
mod generated;
#[cfg(test)]
mod lines;
#[cfg(test)]
mod settings;
#[cfg(test)]
mod stored;
#[cfg(test)]
mod workers;
