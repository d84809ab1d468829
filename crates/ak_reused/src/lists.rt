//! The lists that a node answers again and again.

ghost use Rattle.std.specs.Prelude.{◌≡◌, ◌↔◌, ◌∷◌, [], IsTrue};
ghost use Rattle.ak_reused.specs.Reused.{request};

use crate::packets::is_request;
use ak_address::{Address, Unique};
use ak_wire::{Action, Actions, Message};

/// It is one refusal.
pub(crate) fn is_refusing(actions: &Actions) -> bool {
    if actions.len() != 1 {
        return false;
    }
    match actions.at(0) {
        Some(Action::Refused(_)) => true,
        _ => false,
    }
}

/// It is one request to be let in.
pub(crate) fn is_asking(actions: &Actions) -> bool {
    if actions.len() != 1 {
        return false;
    }
    match actions.at(0) {
        Some(Action::Send(sent)) => match sent.get().message {
            Message::Join => true,
            _ => false,
        },
        _ => false,
    }
}

/// It is one refusal, for this reason.
pub(crate) fn refuses_for(actions: &Actions, reason: u8) -> bool
    ensures { IsTrue result ↔ actions.now ≡ Action.Refused reason ∷ [] }
{
    if actions.len() != 1 {
        return false;
    }
    match actions.at(0) {
        Some(Action::Refused(other)) => *other == reason,
        _ => false,
    }
}

/// It is one request, of this process to be let in at this address.
pub(crate) fn asks_so(actions: &Actions, from: &Unique, to: &Address) -> bool
    ensures { IsTrue result ↔ actions.now ≡ Action.Send (request from.now to.now) ∷ [] }
{
    if actions.len() != 1 {
        return false;
    }
    match actions.at(0) {
        Some(Action::Send(sent)) => is_request(sent.get(), from, to),
        _ => false,
    }
}
