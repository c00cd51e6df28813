//! Events.
ghost use Rattle.std.specs.Prelude.{◌≡◌, ◌<◌, ◌≤◌, ◌∷◌, [], ◌++◌, length, vec_capacity};
ghost use Rattle.claim_log.specs.declared.event.Event.{Event as Happening};

use claim_rules::Why;
use res_base::FileKey;

/// What happened to a key.
#[derive(Drop)]
pub enum EventKind {
    Claim(FileKey),
    /// Its answer came; its reading stands at this place among the known ones.
    Arrive(FileKey, u64),
    Broke(FileKey, Why),
    GiveBack(FileKey),
}

/// What happened, and by which seat.
#[derive(Drop)]
pub struct Event {
    pub seat: u32,
    pub kind: EventKind,
}

/// Puts an event last, where there is room.
pub(crate) fn put_last(events: &mut Vec<Event>, seat: u32, kind: EventKind)
    requires { length events.old.items < vec_capacity events.old }
    ensures items { events.new.items ≡ events.old.items ++ record { seat = seat; kind = kind } ∷ [] }
    ensures capacity { vec_capacity events.old ≤ vec_capacity events.new }
{
    events.push(Event { seat, kind }).unwrap();
}
