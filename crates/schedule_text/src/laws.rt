//! The laws of schedules as text: a function whose clauses are the theorem, and which does nothing.

ghost use Rattle.std.specs.Prelude.{◌≡◌, [], ◌∷◌, List, Some};
ghost use Rattle.archive_model.specs.World.{Event};
ghost use Rattle.schedule_text.specs.Schedule.{line_events, schedule_of};
ghost use Rattle.schedule_text.specs.Spelling.{Fits, AllFit, event_text, schedule_text};

/// Each event has a line that is read as this event, and each list of events a text that is read as this list.
pub fn read_back()
    ensures event { (e : Event) → Fits e → line_events (event_text e) ≡ Some (e ∷ []) }
    ensures schedule { (events : List Event) → AllFit events → schedule_of (schedule_text events) ≡ Some events }
{}
