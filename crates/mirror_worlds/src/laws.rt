//! What holds for the worlds of several archives. These functions do nothing: each contract is a theorem.

ghost use Rattle.std.specs.Prelude.{◌≡◌, ◌↔◌, ℕ, List, [], ◌∷◌, ◌++◌, take, Contains, Option, Some, Ok};
ghost use Rattle.tws_file.specs.declared.«ruleset».Ruleset.{Ruleset as Rules};
ghost use Rattle.tws_best.specs.Best.{Collected, IsCollectionOf, collection_text, IsBestOver};
ghost use Rattle.tftp_packet.specs.declared.endpoint.Endpoint.{Endpoint};
ghost use Rattle.archive_client.specs.Client.{put};
ghost use Rattle.archive_table.specs.Table.{map_of};
ghost use Rattle.archive_model.specs.World.{World, Origin, empty_origin, first_world};
ghost use Rattle.archive_theorem.specs.Headline.{IsOwn, files_of};
ghost use Rattle.archive_theorem.specs.Effects.{HasBegunWith};
ghost use Rattle.tws_compare.specs.Part.{HasNothingBetter};
ghost use Rattle.archive_mirrors.specs.Archives.{Copy, Event, run, outside_of};
ghost use Rattle.archive_mirrors.specs.Reaching.{Reaches, HoldsText, IsNoWorse, AllReach, OnlyAt};
ghost use Rattle.mirror_worlds.specs.Worlds.{JointStep, Fetched, HasFetched, MayJoin, Matches, Joins, Skips, IsCopyOf, with_origin, takes_all};
ghost use Rattle.archive_wire.specs.Wire.{Entry};
ghost use Rattle.archive_runs.specs.Rounds.{PutsInRounds};
ghost use Rattle.archive_sync.specs.News.{IsPart, Told};
ghost use Rattle.archive_sync.specs.Fetching.{Asked, FetchesText, FetchesNews};
ghost use Rattle.mirror_worlds.specs.Sample.{SyncCanHappen};
ghost use Rattle.mirror_worlds.specs.Syncs.{FetchHappens, PutHappens, WasFetched, HasBoth, AreOf, put_of, IsCarriedOut, WasPut};

/// Archives without anything, wherever they are, match no events. Each step of one of them makes some events: a file
/// that it takes is from outside, or is what a client of own ports has fetched anywhere by a get, or what of it is better
/// than what was fetched there; and what clients fetch are copies. So each server's collections are those of
/// `archive_mirrors`, and where two stand for the same texts from outside, they are the same bytes.
pub fn joining()
    ensures start { (homes : ℕ → Endpoint) → Matches (λ archive. first_world (empty_origin (homes archive))) [] }
    // One of them may begin with the collections of a folder: the texts that these are over count as taken from outside.
    ensures folder { (ws : ℕ → World) (events : List Event) (archive : ℕ) (home : Endpoint) (o : Origin) → Matches ws events →
        ws archive ≡ first_world (empty_origin home) → Matches (with_origin archive o ws) (events ++ takes_all archive o.texts) }
    ensures step { (ws : ℕ → World) (events : List Event) (s : JointStep) → Matches ws events → MayJoin s ws → Joins s ws events }
    ensures skip { (ws : ℕ → World) (events : List Event) (archive : ℕ) (f own : Fetched) → Matches ws events → HasFetched ws f →
        HasFetched ws own → own.archive ≡ archive → HasNothingBetter f.got.file own.got.file → Skips archive ws events f own }
    ensures fetched { (ws : ℕ → World) (events : List Event) (f : Fetched) → Matches ws events → HasFetched ws f →
        (copy : Copy) × IsCopyOf (run events) f copy }
    ensures server { (ws : ℕ → World) (events : List Event) → Matches ws events → (rules : Rules) (here : ℕ) →
        IsCollectionOf rules ((run events).sources rules here) (map_of rules (ws here).server.maps) }
    ensures alike { (ws : ℕ → World) (events : List Event) → Matches ws events → (rules : Rules) (here there : ℕ) →
        ((t : List ℕ) → Contains ((run events).sources rules here) t ↔ Contains ((run events).sources rules there) t) →
        collection_text (map_of rules (ws here).server.maps) ≡ collection_text (map_of rules (ws there).server.maps) }
    // A server that all archives have reached since the last text came from outside has the best over all of these.
    ensures all { (ws : ℕ → World) (before after : List Event) → Matches ws (before ++ after) → outside_of after ≡ [] →
        (rules : Rules) (archives : List ℕ) → OnlyAt archives before → (here : ℕ) → AllReach rules (run before) after archives here →
        IsBestOver rules (outside_of (before ++ after)) (collection_text (map_of rules (ws here).server.maps)) }
    // A file that a client of own ports counted as sent at one archive is in the collection of each server that this archive
    // has reached since, whatever happens later, and whether the first archive still exists or not.
    ensures sent { (ws later : ℕ → World) (before middle after : List Event) → Matches ws before →
        Matches later (before ++ (middle ++ after)) → (rules : Rules) (there here : ℕ) → Reaches rules (run before) middle there here →
        (e : Endpoint) → Contains (ws there).sent e → IsOwn (ws there) e →
        (file : List ℕ) × HasBegunWith (ws there) e (put file) × HoldsText (map_of rules (later here).server.maps) file }
{}

/// What the contracts of `fetch_news` and `put_part` say of a sync is a fetch of each collection, and a put of exactly what is
/// better, in `archive_mirrors`. Each text that was fetched is that of a finished get of its archive. Whatever has happened
/// meanwhile, if nothing is better, that is an event; else the step that takes the planned part puts exactly what of
/// the one copy is better than the other. And a put of the part that returned Ok took effect at one such step.
pub fn syncing()
    ensures fetches { (o : Origin) (asked : Asked) (text : List ℕ) (before after : Option (List Entry)) (call : FetchesText o.home asked text before after)
        (h : FetchHappens o asked text call) → WasFetched o h.host asked.rules text call.got.begun h.last }
    ensures forth { (from to : Endpoint) (asked : Asked) (told : Told) (before after : Option (List Entry))
        (news : FetchesNews from to asked told before after) (ws : ℕ → World) (events : List Event) (here : ℕ) (f own : Fetched) → Matches ws events →
        HasBoth ws here f own news.first news.second → IsCarriedOut here ws events f own told.forth }
    // The reverse, from the same two texts.
    ensures back { (from to : Endpoint) (asked : Asked) (told : Told) (before after : Option (List Entry))
        (news : FetchesNews from to asked told before after) (ws : ℕ → World) (events : List Event) (here : ℕ) (f own : Fetched) → Matches ws events →
        HasBoth ws here f own news.second news.first → IsCarriedOut here ws events f own told.back }
    ensures put { (o : Origin) (from : Endpoint) (asked : Asked) (told : Told) (before mid after : Option (List Entry))
        (news : FetchesNews from o.home asked told before mid) (part : List ℕ) → told.forth ≡ Some part → (len : ℕ)
        (call : PutsInRounds o.home part asked.rounds (Ok len) mid after) (h : PutHappens o part asked.rounds len call) →
        WasPut o h.host part news.first news.second call.begun h.last }
    // So after it the one archive has, for each solution that the other one had when the get there began, one that is no worse, whatever
    // it takes besides; also if nothing was put.
    ensures brings { (rules : Rules) (ws : ℕ → World) (here : ℕ) (f own : Fetched) (first second : List ℕ) →
        HasBoth ws here f own first second → (g : AreOf rules ws f own) (part : Option (List ℕ)) → IsPart first second part →
        (after : List (List ℕ)) → ((t : List ℕ) → Contains (files_of (ws here).taken ++ put_of part) t → Contains after t) → (old new : Collected) →
        IsCollectionOf rules (files_of (take g.theirs.finished.began.taken (ws f.archive).taken)) old → IsCollectionOf rules after new →
        IsNoWorse old new }
    // Such a sync can happen: what one archive has is put at one that has nothing.
    ensures sample { SyncCanHappen }
{}
