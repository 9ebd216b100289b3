//! What holds for the running archive. This function does nothing: its contract is a theorem.

ghost use Rattle.std.specs.Prelude.{◌≡◌, ◌≢◌, ℕ, List, Option, Some, Result, Ok};
ghost use Rattle.archive_table.specs.Table.{Maps, IsMerged, is_same};
ghost use Rattle.std.specs.Map.{lookup};
ghost use Rattle.tftp_packet.specs.declared.endpoint.Endpoint.{Endpoint};
ghost use Rattle.archive_client.specs.Client.{Client, state_of, file_or_client};
ghost use Rattle.archive_client.specs.declared.state.State.TheVariants.{Sent};
ghost use Rattle.tws_file.specs.declared.«ruleset».Ruleset.{Ruleset};
ghost use Rattle.archive_table.specs.Keeper.{Keeping, KeepsMaps};
ghost use Rattle.archive_runs.specs.declared.run_fault.RunFault.{RunFault};
ghost use Rattle.archive_wire.specs.Wire.{Entry};
ghost use Rattle.archive_server.specs.Turn.{Server, IsTurn, IsRound, MakesTurns, MakesRounds};
ghost use Rattle.archive_runs.specs.Run.{Run, put_result, WritesGot, RunsPut, RunsGet};
ghost use Rattle.archive_runs.specs.Rounds.{dallying, MakesDally, PutsInRounds, GetsInRounds};
ghost use Rattle.archive_model.specs.World.{Origin, empty_origin, first_world, IsPrefix, AllMayHappen, AllMerged};
ghost use Rattle.archive_model.specs.Restarts.{AreAlike, LoadsAs};
ghost use Rattle.archive_theorem.specs.Headline.{IsOwn, HasOwnPorts, ClientsHeadline, Headline, SentOnce, files_of};
ghost use Rattle.archive_theorem.specs.Durable.{HoldsPromised};
ghost use Rattle.archive_theorem.specs.Traces.{trace_steps};
ghost use Rattle.archive_theorem.specs.Samples.{sample_file};
ghost use Rattle.archive_running.specs.Archive.{ArchiveRun, world_of, Mirrors, WritesFinished, CanReach, CanRestart, CanEnd};
ghost use Rattle.archive_running.specs.Starts.{StartsFrom, StartsWith, Follows, FetchesEarlier, CanStart};
ghost use Rattle.archive_running.specs.Calls.{Moment, IsReached, ServesAt, world_at, ManyHappen, after_turn, after_round, DalliesHappen, ClientAt, PutHappens, GetHappens, PutInRoundsHappens, GetInRoundsHappens, PutWasTaken, GetWasWritten, PutCanHappen};

/// Every run of a server and its clients, made of turns and rounds as archive_server and archive_runs define them, in
/// which whatever is received was sent before or is a stranger's, is a trace whose events may all happen; the world
/// after it mirrors the archive. The server may be on any host and take requests at any port, and it may have
/// collections at first, which are the best over some texts, such as those of its folder: any two readable texts of a
/// keeper. So the headline holds for it, for each client whose ports are its own: the file of a put that returned Ok
/// was taken exactly once, and what a get that returned Ok has written is the collection at one of its own requests.
/// A run goes on through each restart, also where the server ended because it could not know whether it had kept a file.
/// Openings of the world are the requests that opened a transfer, and strays are datagrams that arrived although no
/// wire was given them to send.
pub fn running_law()
    ensures mirrors { (o : Origin) (r : ArchiveRun o) → Mirrors r.archive (world_of r) }
    ensures happens { (o : Origin) (r : ArchiveRun o) → AllMayHappen (trace_steps r.members (first_world o)) (first_world o) }
    ensures merged { (o : Origin) (r : ArchiveRun o) → AllMerged (trace_steps r.members (first_world o)) (first_world o) }
    ensures clients { (o : Origin) (r : ArchiveRun o) → ClientsHeadline o (world_of r) }
    // So if the server has nothing at first and no port is reused, all of this holds of every client.
    ensures headline { (home : Endpoint) (r : ArchiveRun (empty_origin home)) → HasOwnPorts (world_of r) → Headline (world_of r) }
    // By `mirrors`, the operations and files of this world are those of the archive.
    ensures sent { (o : Origin) (r : ArchiveRun o) (e : Endpoint) → IsOwn (world_of r) e → (c : Client) (len n : ℕ) →
        lookup (is_same e) r.archive.clients ≡ Some c → put_result (state_of c) len ≡ Ok n → SentOnce (world_of r).past e }
    ensures fetched { (o : Origin) (r : ArchiveRun o) (e : Endpoint) → IsOwn (world_of r) e → (c : Client) (len : ℕ) (written now : Option (List ℕ)) →
        lookup (is_same e) r.archive.clients ≡ Some c → WritesGot c (Ok len) written now → WritesFinished e c len (world_of r) written now }
    // There are runs in which a client counts its file as sent, and runs in which one has fetched a collection.
    ensures sends { CanReach (λ c. state_of c ≡ Sent) }
    ensures fetches { CanReach (λ c. (file : List ℕ) × (file_or_client c ≡ Ok file)) }
    // In rounds, and through a restart, a file with a solution is taken and fetched.
    ensures restarts { CanRestart (sample_file 100) }
    // A keep of which the server does not know whether it took effect did so.
    ensures ends { CanEnd (sample_file 100) }
{}

/// Whole calls are such moves. The turns or rounds that the contract of `serve_turns` or `serve_rounds` lists lead from
/// one moment of the archive to another, if each receives only what was sent before it or is a stranger's, whatever
/// others do in between; and so do the start and the turns of `run_put` and `run_get`, the start and the rounds of
/// `put_in_rounds` and `get_in_rounds`, and the rounds of a get that dallies. So where a put returned Ok, its file was
/// taken exactly once, and what a get that returned Ok has written is the collection at one of its own requests, if the
/// ports of its endpoint are its own.
pub fn calls_law()
    ensures turns { (o : Origin) (turns : ℕ) (old new : Server) (taken : ℕ) (before after : Option (List Entry)) (kept now : Option (List Keeping))
        (call : MakesTurns turns old new taken before after kept now) (first last : Moment) → ManyHappen IsTurn after_turn call.served first last →
        ServesAt o old.table kept first → ServesAt o new.table now last }
    ensures rounds { (o : Origin) (rounds : ℕ) (old new : Server) (taken : ℕ) (before after : Option (List Entry)) (kept now : Option (List Keeping))
        (call : MakesRounds rounds old new taken before after kept now) (first last : Moment) → ManyHappen IsRound after_round call.served first last →
        ServesAt o old.table kept first → ServesAt o new.table now last }
    ensures put { (o : Origin) (host : ℕ) → host ≢ o.home.host → (file : List ℕ) (turns : ℕ) (result : Result ℕ RunFault)
        (before after : Option (List Entry)) (call : RunsPut o.home file turns result before after) (first last : Moment) →
        PutHappens o.home host file turns result before call.mid after call.begun call.begins call.ends first last → IsReached o first →
        IsReached o last × ((n : ℕ) → result ≡ Ok n → PutWasTaken host file call.begun (world_at o last)) }
    ensures get { (o : Origin) (host : ℕ) → host ≢ o.home.host → («ruleset» : Ruleset) (turns : ℕ) (result : Result ℕ RunFault)
        (before after : Option (List Entry)) (written now : Option (List ℕ)) (call : RunsGet o.home «ruleset» turns result before after written now)
        (first last : Moment) →
        GetHappens o.home host «ruleset» turns result before call.mid after written now call.begun call.begins call.ends first last → IsReached o first →
        IsReached o last × ((len : ℕ) → result ≡ Ok len → GetWasWritten host «ruleset» call.begun len (world_at o last) written now) }
    // The same by rounds; and the run that a get returns is its client's, which may then dally.
    ensures put_in_rounds { (o : Origin) (host : ℕ) → host ≢ o.home.host → (file : List ℕ) (rounds : ℕ) (result : Result ℕ RunFault)
        (before after : Option (List Entry)) (call : PutsInRounds o.home file rounds result before after) (first last : Moment) →
        PutInRoundsHappens o.home host file rounds result before call.mid after call.begun call.begins call.ends first last → IsReached o first →
        IsReached o last × ((n : ℕ) → result ≡ Ok n → PutWasTaken host file call.begun (world_at o last)) }
    ensures get_in_rounds { (o : Origin) (host : ℕ) → host ≢ o.home.host → («ruleset» : Ruleset) (rounds : ℕ) (result : Result (ℕ × Run) RunFault)
        (before after : Option (List Entry)) (written now : Option (List ℕ)) (call : GetsInRounds o.home «ruleset» rounds result before after written now)
        (first last : Moment) →
        GetInRoundsHappens o.home host «ruleset» rounds result before call.mid after written now call.begun call.begins call.ends first last →
        IsReached o first → IsReached o last × ((len : ℕ) (run : Run) → result ≡ Ok (len, run) →
        GetWasWritten host «ruleset» call.begun len (world_at o last) written now × ClientAt o host run last) }
    ensures dally { (o : Origin) (host : ℕ) → host ≢ o.home.host → (rounds : ℕ) (old new : Run) (before after : Option (List Entry))
        (call : MakesDally rounds old new before after) (first last : Moment) → DalliesHappen (dallying call.time) host call.made.dallies.dallies first last →
        ClientAt o host old first → ClientAt o host new last }
    // A put of a file with a solution can happen so.
    ensures puts { PutCanHappen (sample_file 100) }
{}

/// A chain of starts. Where a run has ended, a server on any host, at any port, may start from what its keeper has: it
/// loads the collections that the run's server had. Its clients and its network are new. What the run has promised then
/// holds in the new run, and in all that follow: the collections hold all that was taken, sent and fetched in it, as
/// after one run; and a get has fetched the best over files that begin with all those of the runs before.
pub fn starts_law()
    ensures begins { (o : Origin) (r : ArchiveRun o) (home : Endpoint) (log reported : List Keeping) → r.archive.kept ≡ Some log → AreAlike log reported →
        (next : Origin) × (next.home ≡ home) × StartsFrom r next × LoadsAs reported next.maps }
    // If the server ended in a keep, or after one whose outcome it could not know, the collection may be there all the same.
    ensures begins_with { (o : Origin) (r : ArchiveRun o) (home : Endpoint) (file : List ℕ) (maps : Maps) (log mid reported : List Keeping) →
        r.archive.kept ≡ Some log → IsMerged file r.archive.server.maps maps → KeepsMaps r.archive.server.maps maps (Some log) (Some mid) →
        AreAlike mid reported →
        (next : Origin) × (next.home ≡ home) × (next.maps ≡ maps) × StartsWith r next × LoadsAs reported next.maps }
    ensures files { (o p : Origin) (r : ArchiveRun o) (s : ArchiveRun p) → Follows o r p s → IsPrefix (files_of r.archive.taken) (files_of s.archive.taken) }
    ensures promised { (o p : Origin) (r : ArchiveRun o) (s : ArchiveRun p) → Follows o r p s → HoldsPromised (world_of r) s.archive.server.maps }
    ensures fetched { (o p : Origin) (r : ArchiveRun o) (s : ArchiveRun p) → Follows o r p s → FetchesEarlier r s }
    // A file with a solution is put in one run, and fetched after a start on another host.
    ensures starts { CanStart (sample_file 100) }
{}
