//! Schedules that nobody wrote: settings that are fixed, and events that the words of a generator choose.
#![tactic(auto)]

mod choice;
mod draw;
mod event;
mod generator;
mod laws;
mod process;
mod settings;
mod sight;

pub use generator::Generator;
pub use laws::generated_events_may_happen;
pub use settings::fixed_settings;
pub use sight::Sight;
