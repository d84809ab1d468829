//! Whole replays, event by event: what a node knows is the fold of the history, lives and margins end as
//! they must, the settled views stand in one line, and a packet is stored once.
#![tactic(auto)]

#[cfg(test)]
mod double;
#[cfg(test)]
mod fold;
#[cfg(test)]
mod life;
#[cfg(test)]
mod line;
#[cfg(test)]
mod margin;
#[cfg(test)]
mod seen;
#[cfg(test)]
mod stored;
#[cfg(test)]
mod story;
#[cfg(test)]
mod voters;
