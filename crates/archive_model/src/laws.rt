//! What every step of the model adds and leaves. These functions do nothing: each contract is a law.

ghost use Rattle.std.specs.Prelude.{◌≡◌, ℕ, List};
ghost use Rattle.archive_table.specs.Table.{Grant, Maps};
ghost use Rattle.archive_table.specs.Keeper.{Keeping};
ghost use Rattle.archive_model.specs.World.{Datagram, World, WorldStep, happens, run_from, restarts, Extends, server_endpoint};
ghost use Rattle.archive_model.specs.Adding.{Adds, StraysIn, OnlyEndsTransfers, KeepsChange};

/// What has happened stays so, whatever happens next. Each step adds to it only what it does, at its place; a stray that
/// may happen is remembered; a restart takes nothing back; and what changes the collections is kept in the same step.
/// That a keeper so has, after each step, what the server has is `restart_law` of `archive_theorem`.
pub fn event_law()
    ensures grows { (w : World) (steps : List WorldStep) → Extends w.past (run_from steps w).past }
    ensures adds { (w : World) (s : WorldStep) → Adds s.event w.past (happens s w).past }
    ensures stray { (w : World) (d : Datagram) (grant : Grant) (maps : Maps) → StraysIn w d grant maps }
    ensures restart { (w : World) → OnlyEndsTransfers w (restarts w) }
    ensures keeps { (w : World) (index spare : ℕ) (maps : Maps) (before after : List Keeping) → KeepsChange w index spare maps before after }
{}

/// The values of the server's host and its request port, which the definitions refer to by name.
pub fn server_values()
    ensures host { server_endpoint.host ≡ 1 }
    ensures port { server_endpoint.port ≡ 6969 }
{}
