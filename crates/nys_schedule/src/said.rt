//! The event that a line says, as its contracts see it.

ghost use Rattle.std.specs.Prelude.{◌≡◌};
ghost use Rattle.nys_rules.specs.Events.{plain};

use nys_rules::Event;
use std::marker::Model;

/// The event that a line says. Contracts see the plain data of it.
#[derive(Drop)]
pub(crate) struct Said {
    event: Event,
}

impl Model for Said {
    ghost use Rattle.nys_rules.specs.Events.{Plain, plain};

    ghost Value = { Plain };

    ghost view = { λ said. plain said.event };
}

impl Said {
    /// A line that says this.
    pub(crate) fn new(event: Event) -> Said
        ensures { result ≡ plain event }
    {
        Said { event }
    }

    /// What the line says.
    pub(crate) fn event(&self) -> &Event
        ensures { plain result.now ≡ self.now }
    {
        &self.event
    }

    /// What the line says, without the line.
    pub(crate) fn into_event(self) -> Event
        ensures { plain result ≡ self }
    {
        self.event
    }
}
