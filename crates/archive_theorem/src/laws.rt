//! What holds for every run. These functions do nothing: each contract is a theorem.

ghost use Rattle.std.specs.Prelude.{◌≡◌, ◌≢◌, ℕ, ◌≤◌, true, false, List, length, [], ◌∷◌, ◌++◌, Contains, Some, Option};
ghost use Rattle.archive_theorem.specs.Samples.{request_twice, late_ack, crossed_get, unanswered, strange_put, restart_between, empty_put, empty_get, lost_block, barred_strays, opened_again, reused_elsewhere, begun_twice, opened_twice, strayed_there, FailsBy, sample_client, summary_of, sample_opening, one_put_summary, no_file_summary, crossed_get_summary, strange_put_summary, restart_summary, empty_put_summary, empty_get_summary, lost_block_summary};
ghost use Rattle.tftp_packet.specs.declared.endpoint.Endpoint.{Endpoint};
ghost use Rattle.tftp_packet.specs.declared.cause.Cause.{Cause};
ghost use Rattle.tftp_packet.specs.declared.cause.Cause.TheVariants.{Refused, TimedOut};
ghost use Rattle.archive_client.specs.Client.{Operation, put, is_too_long};
ghost use Rattle.archive_theorem.specs.Reuse.{BeginKeepsOwn, OpeningKeepsOwn, StrayKeepsOwn, IsOwnByTests};
ghost use Rattle.archive_model.specs.World.{Begun, Datagram, Got, Opening, to_write, World, Event, WorldStep, AreOver, Origin, empty_origin, RunFrom, first_world, last_world, happens, start, run, run_from, HasMerged, AllMerged, asked_by, AllMayHappen};
ghost use Rattle.archive_table.specs.Table.{Grant, Maps, Taken, empty_maps, map_of, has_long_text, has_slot};
ghost use Rattle.tws_file.specs.declared.«ruleset».Ruleset.{Ruleset};
ghost use Rattle.tws_file.specs.declared.«ruleset».Ruleset.TheVariants.{Lynx, Ms};
ghost use Rattle.tws_best.specs.Best.{Collected, IsCollected, collection_text};
ghost use Rattle.archive_table.specs.Keeper.{Keeping, LoadedFrom};
ghost use Rattle.archive_model.specs.Restarts.{HasKept, HaveOwnRuleset, LoadsAs, kept_texts, StepStaysKept, LoadsTheSame, FailsOutside, RunKeeps, RestartsFrom};
ghost use Rattle.archive_theorem.specs.Effects.{TakesEffect, ReadsAtOnce, FetchesNoLess, FetchesNone};
ghost use Rattle.archive_theorem.specs.Errors.{HasFailed, IsNotTaken, IsTakenAtMostOnce, HasFetchedNothing};
ghost use Rattle.archive_theorem.specs.Error_Samples.{unkept_put, found_put, late_put, stale_put, put_taken, PutFails};
ghost use Rattle.archive_theorem.specs.Freeing.{IsFreed};
ghost use Rattle.archive_theorem.specs.Patience.{IsHeld, HoldsByBlocks};
ghost use Rattle.archive_theorem.specs.Progress.{CanPut, IsUnstuck, CanGet, GetIsUnstuck};
ghost use Rattle.archive_theorem.specs.Durable.{AreNoWorse, LoadsPromised, CutsShort};
ghost use Rattle.archive_theorem.specs.Traces.{Member, trace_from, trace_steps, TraceFrom, trace_end};
ghost use Rattle.archive_theorem.specs.Headline.{IsOwn, HasOwnPorts, HasOperation, ClientsHeadline, Headline, FetchesOwnSent, FetchesSent, BeganBy, StraysBy};

/// For every list of begins, deliveries of any datagram ever sent, losses, time-outs, strangers' datagrams and
/// restarts, wherever the server is, whatever collections it has at first, whatever memory is refused and whatever is not
/// kept: each collection is the best over the files taken. And for each client whose ports are its own, so that no other
/// operation begins at its endpoint, no port of the server is opened for it twice and no stranger sends from there: a
/// put's file is taken at most once and unchanged, and exactly once if its client counts it as sent; and a finished get is
/// the collection at one of its own requests. If a step takes a file, the collections after it are those that the server's
/// contract says.
pub fn network_law()
    ensures clients { (o : Origin) (r : RunFrom o) → ClientsHeadline o (last_world r) }
    // So if the server has nothing at first and no port is reused, all of this holds of every client.
    ensures headline { (home : Endpoint) (r : RunFrom (empty_origin home)) → HasOwnPorts (last_world r) → Headline (last_world r) }
    // Every operation that has begun is that of an event, with the number of files that were taken before that event.
    ensures began { (o : Origin) (steps : List WorldStep) (b : Begun) → Contains (run_from steps (first_world o)).begun b →
        BeganBy (first_world o) steps b }
    // The strays are those of the events.
    ensures strays { (o : Origin) (steps : List WorldStep) (d : Datagram) → Contains (run_from steps (first_world o)).strays d → StraysBy steps d }
    // A put that was counted as sent before a get began is among the files over which what that get has fetched is the best.
    ensures since { (home : Endpoint) (r : RunFrom (empty_origin home)) → HasOwnPorts (last_world r) →
        (before after : List WorldStep) (s : WorldStep) → r.steps ≡ before ++ s ∷ after → FetchesSent (first_world (empty_origin home)) before after s }
    // No step sends more than one datagram.
    ensures cost { (o : Origin) (steps : List WorldStep) → length (run_from steps (first_world o)).net ≤ length steps }
    // For all events and grants there are collections as the server's contract says, and the world after them is
    // unique.
    ensures total { (o : Origin) (asked : List (Event × Grant)) → (r : RunFrom o) × (asked_by r.steps ≡ asked) }
    ensures one { (o : Origin) (r s : RunFrom o) → asked_by r.steps ≡ asked_by s.steps → last_world r ≡ last_world s }
{}

/// The operations of the clients whose ports are their own are in one order, whatever others do: each put that is counted
/// as sent takes effect at one step of the run, which takes its file, and each get that has fetched at one step, at which
/// what it fetched is the server's collection; and that step comes after the start of the operation and, as each beginning
/// of a run is a run, before its end. So where one operation ends before another begins, what was sent is fetched
/// (`since`), a later get has fetched no less, and an earlier one has nothing of a later put.
pub fn effects_law()
    ensures puts { (o : Origin) (r : RunFrom o) (e : Endpoint) → IsOwn (last_world r) e → Contains (last_world r).sent e →
        TakesEffect (first_world o) r.steps e }
    ensures gets { (o : Origin) (r : RunFrom o) (g : Got) → IsOwn (last_world r) g.client → Contains (last_world r).got g →
        ReadsAtOnce (first_world o) r.steps g }
    ensures since { (o : Origin) (r : RunFrom o) (before after : List WorldStep) (s : WorldStep) → r.steps ≡ before ++ s ∷ after →
        FetchesOwnSent (first_world o) before after s }
    ensures no_less { (o : Origin) (r : RunFrom o) (before after : List WorldStep) (s : WorldStep) → r.steps ≡ before ++ s ∷ after →
        FetchesNoLess (first_world o) before after s }
    ensures none { (o : Origin) (r : RunFrom o) (before after : List WorldStep) (s : WorldStep) → r.steps ≡ before ++ s ∷ after →
        FetchesNone (first_world o) before after s }
{}

/// A run may begin with the collections that are loaded from a folder, which are the best over its two texts: those of
/// collections, or any others that are readable. The collections never get worse: later, at each key, they have a body, and
/// none of higher rank. What a keeper of which the first collections were loaded loads after the run, and also if the step
/// that comes next is cut short, holds all that was promised by then. And nothing gets stuck.
pub fn folder_law()
    ensures loaded { (log : List Keeping) (maps : Maps) → LoadsAs log maps → AreOver (kept_texts log) maps }
    ensures own { (lynx ms : Collected) → IsCollected lynx → IsCollected ms → lynx.«ruleset» ≡ Lynx → ms.«ruleset» ≡ Ms →
        AreOver (collection_text lynx ∷ collection_text ms ∷ []) (record { lynx = lynx; ms = ms }) }
    ensures no_worse { (o : Origin) (r : RunFrom o) (before after : List WorldStep) → r.steps ≡ before ++ after →
        AreNoWorse (run_from before (first_world o)).server.maps (last_world r).server.maps }
    ensures promised { (o : Origin) (r : RunFrom o) (first : List Keeping) → LoadsAs first o.maps →
        (last : List Keeping) → RunKeeps r.steps (first_world o) first last → LoadsPromised (first_world o) r.steps last }
    ensures cut { (o : Origin) (r : RunFrom o) (first : List Keeping) → LoadsAs first o.maps →
        (s : WorldStep) (before last : List Keeping) → HasMerged s (last_world r) → RunKeeps r.steps (first_world o) first before →
        CutsShort (first_world o) r.steps s before last → LoadsPromised (first_world o) r.steps last }
    // No transfer stays for ever: whatever has happened, time-outs alone free every port.
    ensures freed { (o : Origin) (r : RunFrom o) → IsFreed (last_world r) }
    // Nothing gets stuck. While there is a place for a transfer, a put that begins anywhere is counted as sent if its datagrams
    // are delivered in turn, and a get fetches the collection, unless that is too long. After the time-outs there is a place.
    ensures in_turn { (o : Origin) (r : RunFrom o) (e : Endpoint) (file : List ℕ) → e.host ≢ o.home.host → is_too_long (put file) ≡ false →
        has_slot (last_world r).server ≡ true → CanPut (last_world r) e file }
    ensures get_in_turn { (o : Origin) (r : RunFrom o) (e : Endpoint) («ruleset» : Ruleset) → e.host ≢ o.home.host →
        has_long_text (map_of «ruleset» (last_world r).server.maps) ≡ false → has_slot (last_world r).server ≡ true → CanGet (last_world r) e «ruleset» }
    ensures unstuck { (o : Origin) (r : RunFrom o) (e : Endpoint) (file : List ℕ) → e.host ≢ o.home.host → is_too_long (put file) ≡ false →
        IsUnstuck (last_world r) e file }
    ensures get_unstuck { (o : Origin) (r : RunFrom o) (e : Endpoint) («ruleset» : Ruleset) → e.host ≢ o.home.host →
        has_long_text (map_of «ruleset» (last_world r).server.maps) ≡ false → GetIsUnstuck (last_world r) e «ruleset» }
{}

/// What an error means, for each client whose ports are its own. If it failed by an ERROR other than 5, unknown transfer, its file is
/// not taken, neither then nor in any run that goes on from there; unless it was not known whether it was kept, and the next start
/// found it. However it failed, its file is taken at most once, perhaps later; and a get that failed has fetched nothing.
pub fn error_law()
    ensures refused { (o : Origin) (r : RunFrom o) (before after : List WorldStep) → r.steps ≡ before ++ after → (e : Endpoint) (code : ℕ) →
        HasFailed (run_from before (first_world o)) e (Refused code) → code ≢ 5 → IsOwn (last_world r) e → IsNotTaken (last_world r).past e }
    ensures once { (o : Origin) (r : RunFrom o) (before after : List WorldStep) → r.steps ≡ before ++ after → (e : Endpoint) (why : Cause) →
        HasFailed (run_from before (first_world o)) e why → IsOwn (last_world r) e → IsTakenAtMostOnce (last_world r).past e }
    ensures nothing { (o : Origin) (r : RunFrom o) (before after : List WorldStep) → r.steps ≡ before ++ after → (e : Endpoint) (why : Cause) →
        HasFailed (run_from before (first_world o)) e why → IsOwn (last_world r) e → HasFetchedNothing (last_world r).past e }
{}

/// Some runs in which a put fails: its file is not kept; it is not known whether it is kept, and the next start finds it; its DATA
/// arrives after the client has given up; and its file is taken before an ERROR 5. So the exceptions of `error_law` are needed.
pub fn error_runs()
    ensures unkept { PutFails unkept_put (Refused 0) [] [] }
    ensures found { PutFails found_put (Refused 0) put_taken put_taken }
    ensures late { PutFails late_put TimedOut put_taken [] }
    ensures stale { PutFails stale_put (Refused 5) put_taken [] }
{}

/// No place of the server is held without its peer's datagrams. In any stretch of a run over which one transfer is at a port, the
/// port times out fewer than `MISSES` times, and `MISSES` times for each block that is received or acknowledged there meanwhile; and
/// each such block takes a datagram from the peer.
pub fn places_law()
    ensures { (o : Origin) (r : RunFrom o) (before after : List WorldStep) → r.steps ≡ before ++ after → (port : ℕ) →
        IsHeld port after (run_from before (first_world o)) → HoldsByBlocks port (run_from before (first_world o)) after }
{}

/// For every trace, which names the datagrams that arrive: if each event that it makes may happen, so that each
/// datagram that it names was sent before or is a stranger's, the run of these events, with what the trace was granted,
/// does exactly the trace's deeds. So the headline holds for every client of such a trace whose ports are its own.
pub fn trace_law()
    ensures run { (o : Origin) (members : List Member) → AllMayHappen (trace_steps members (first_world o)) (first_world o) →
        run_from (trace_steps members (first_world o)) (first_world o) ≡ trace_from members (first_world o) }
    ensures clients { (o : Origin) (t : TraceFrom o) → ClientsHeadline o (trace_end t) }
    ensures headline { (home : Endpoint) (t : TraceFrom (empty_origin home)) → HasOwnPorts (trace_end t) → Headline (trace_end t) }
{}

/// Some runs, so that nobody has to take it on trust that a run does something: a request that arrives twice, a last
/// ACK that is late three times, a put that crosses a get, a put that nobody answers, a stranger, a restart, a file
/// without bytes, a get from a server that has nothing, strays that are not allowed.
pub fn sample_runs()
    ensures twice { summary_of (run request_twice) ≡ one_put_summary 6 (sample_opening 1 4000 to_write 0 ∷ sample_opening 1 4001 to_write 0 ∷ []) }
    ensures late { summary_of (run late_ack) ≡ one_put_summary 10 (sample_opening 1 4000 to_write 0 ∷ []) }
    ensures crossed { summary_of (run crossed_get) ≡ crossed_get_summary }
    ensures unanswered { summary_of (run unanswered) ≡ no_file_summary 5 }
    ensures strange { summary_of (run strange_put) ≡ strange_put_summary }
    ensures restarted { summary_of (run restart_between) ≡ restart_summary }
    ensures empty { summary_of (run empty_put) ≡ empty_put_summary }
    ensures fetched_empty { summary_of (run empty_get) ≡ empty_get_summary }
    // One in which nothing is fetched unless the server repeats a block.
    ensures repeated { summary_of (run lost_block) ≡ lost_block_summary }
    ensures barred { summary_of (run barred_strays) ≡ no_file_summary 1 }
    // These runs meet the premises of the law; in all but one a readable file is taken.
    ensures crossed_premises { HasOwnPorts (run crossed_get) × AllMerged crossed_get start }
    ensures strange_premises { HasOwnPorts (run strange_put) × AllMerged strange_put start }
    ensures restarted_premises { HasOwnPorts (run restart_between) × AllMerged restart_between start }
    ensures premises { HasOwnPorts (run empty_put) × AllMerged empty_put start }
    // A second opening for one peer at one port, as a restart allows, reuses the port.
    ensures opened_again { HasOwnPorts (run opened_again) → ⊥ }
    // Another client that reuses its endpoint changes nothing for this one.
    ensures reused_elsewhere { summary_of (run reused_elsewhere) ≡ one_put_summary 6 (sample_opening 1 4000 to_write 0 ∷ []) }
    ensures reused_premises { (HasOwnPorts (run reused_elsewhere) → ⊥) × IsOwn (run reused_elsewhere) (sample_client 1) × AllMerged reused_elsewhere start }
    // In each of these runs one part of own ports alone is missing, and the headline of the client fails.
    ensures begun_twice { FailsBy begun_twice (record { once = false; apart = true; unstrayed = true }) }
    ensures opened_twice { FailsBy opened_twice (record { once = true; apart = false; unstrayed = true }) }
    ensures strayed_there { FailsBy strayed_there (record { once = true; apart = true; unstrayed = false }) }
{}

/// The tests for the reuse of a port: the start of an operation reuses none if neither an operation nor a stranger has
/// been at its endpoint; an opening, if none before had its peer and its port; a stray, if no operation has begun at its
/// endpoint.
pub fn own_ports()
    ensures start { (o : Origin) → HasOwnPorts (first_world o) }
    ensures begin { (w : World) → HasOwnPorts w → (e : Endpoint) (operation : Operation) → BeginKeepsOwn w e operation }
    ensures opening { (w : World) → HasOwnPorts w → (o : Opening) → OpeningKeepsOwn w o }
    ensures stray { (w : World) → HasOwnPorts w → (d : Datagram) → StrayKeepsOwn w d }
    // Once a port was reused, it stays reused.
    ensures before { (w : World) (s : WorldStep) → HasOwnPorts (happens s w) → HasOwnPorts w }
    // The ports of one endpoint are its own exactly if the tests say so. They are so at the start; once they are not,
    // they stay so; and if no port is reused, those of each endpoint with an operation are its own.
    ensures tests { (w : World) (e : Endpoint) → IsOwnByTests w e }
    ensures own_start { (o : Origin) (e : Endpoint) → IsOwn (first_world o) e }
    ensures own_before { (w : World) (s : WorldStep) (e : Endpoint) → IsOwn (happens s w) e → IsOwn w e }
    ensures each { (w : World) → HasOwnPorts w → (e : Endpoint) → HasOperation w.begun e → IsOwn w e }
{}

/// After each step a keeper has what is loaded as the server's collections: so a restart does not change the collections. A
/// keeper that holds nothing has the empty collections; each step of the server keeps what it changes; a load returns what
/// was kept last. So for every run whose steps keep as the server's contract says, what is loaded at a restart is what the
/// world has after it, and if nothing is loaded, the keeper has failed or an allocation was refused.
pub fn restart_law()
    ensures start { HasKept [] empty_maps }
    ensures step { (grant : Grant) (wanted : Option Taken) (old new : Maps) (before after : List Keeping) → StepStaysKept grant wanted old new before after }
    ensures load { (log : List Keeping) (maps : Maps) → LoadsTheSame log maps }
    // What has the collections' own texts is loaded as these; and one list is loaded as one pair of collections.
    ensures own { (log : List Keeping) (maps : Maps) → HasKept log maps → IsCollected maps.lynx → IsCollected maps.ms → HaveOwnRuleset maps →
        LoadsAs log maps }
    ensures same { (log : List Keeping) (maps : Maps) → LoadsAs log maps → (lynx ms : Collected) → LoadedFrom Lynx (Some log) lynx →
        LoadedFrom Ms (Some log) ms → (lynx ≡ maps.lynx) × (ms ≡ maps.ms) }
    // For every run, from a keeper of which the first collections were loaded. The beginning of a run is a run, so this holds
    // at each restart.
    ensures run { (o : Origin) (r : RunFrom o) (first last : List Keeping) → RunKeeps r.steps (first_world o) first last → LoadsAs first o.maps →
        LoadsAs last (last_world r).server.maps × RestartsFrom last (last_world r) }
    ensures fails { (o : Origin) (r : RunFrom o) (first last : List Keeping) → RunKeeps r.steps (first_world o) first last → LoadsAs first o.maps →
        FailsOutside last }
    // If it had the first collections' own texts, it has those of the last ones.
    ensures kept { (o : Origin) (r : RunFrom o) (first last : List Keeping) → RunKeeps r.steps (first_world o) first last → HasKept first o.maps →
        HasKept last (last_world r).server.maps }
    // Every run has such a list.
    ensures list { (o : Origin) (r : RunFrom o) (first : List Keeping) → (last : List Keeping) × RunKeeps r.steps (first_world o) first last }
{}
