//! What the printed lines are as a schedule.

ghost use Rattle.std.specs.Prelude.{◌≡◌, ◌≤◌, ℕ, Bool, List, All, Ok, length};
ghost use Rattle.nys_bare.specs.declared.read.TheConstants.{MAX_EVENTS};
ghost use Rattle.nys_hosts.specs.declared.limits.TheConstants.{MAX_HOSTS};
ghost use Rattle.nys_rules.specs.Events.{Plain};
ghost use Rattle.nys_schedule.specs.Schedules.{schedule};
ghost use Rattle.nys_schedule.specs.declared.form.Form.TheVariants.{Replay};
ghost use Rattle.nys_schedule_text.specs.EventLines.{event_lines};
ghost use Rattle.nys_schedule_text.specs.Printable.{IsPrintable};

/// The lines of a ring's events are a schedule of just these events, for the hosts that they name and any
/// liars. Does nothing.
pub fn read_back_law()
    ensures { (hosts : ℕ) (liars : ℕ → Bool) (events : List Plain) → hosts ≤ MAX_HOSTS
        → All (IsPrintable hosts) events → length events ≤ MAX_EVENTS
        → schedule Replay hosts liars (event_lines events) ≡ Ok events }
{}
