//! Who leads a cluster, and what the leader makes of a view on which all agree.
#![tactic(auto)]

mod founds;
mod laws;
mod leads;
mod passes;
mod weak;

pub use founds::founding;
pub use laws::{
    founding_raises_joining_members, leaders_effects_are_all, leaders_effects_have_causes,
    leaders_numbers_rise, weak_effects_let_in_who_is_reached,
};
pub use leads::leader;
pub use passes::actions;
pub use weak::weak_effects;
