//! What a node decides of the others by the members that it knows: whom it watches and whom it asks, who is downed, what is
//! settled, to whom it promises, and who runs the cluster singleton.
#![tactic(auto)]

#[cfg(test)]
mod build;
#[cfg(test)]
mod decision;
#[cfg(test)]
mod detector;
#[cfg(test)]
mod downing;
#[cfg(test)]
mod oldest;
#[cfg(test)]
mod promise;
#[cfg(test)]
mod roles;
#[cfg(test)]
mod selection;
#[cfg(test)]
mod settled;
#[cfg(test)]
mod singleton;
