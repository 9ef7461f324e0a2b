//! Schedules.

ghost use Rattle.std.specs.Prelude.{◌≡◌, []};

use crate::Event;
use std::alloc::Global;
use std::collections::VecDeque;
use std::marker::Model;

/// The events of a schedule that are still to come. Contracts see it as their list. If none is
/// left, each turn takes `Event::Next`.
#[derive(Drop)]
pub struct Events {
    left: VecDeque<Event>,
}

impl Model for Events {
    ghost use Rattle.std.specs.Prelude.{List};
    ghost use Rattle.gx_cluster_state.specs.declared.event.Event.{Event};

    ghost Value = { List Event };

    ghost view = { λ e. e.left.items };
}

impl Events {
    /// A schedule without events. It takes no memory.
    pub fn none(alloc: Global) -> Events
        ensures { result ≡ [] }
    {
        Events {
            left: VecDeque::new(alloc),
        }
    }
}
