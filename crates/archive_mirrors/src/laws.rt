//! What holds for every run of several archives. These functions do nothing: each contract is a theorem.

ghost use Rattle.std.specs.Prelude.{◌≡◌, ◌≢◌, ◌↔◌, ℕ, List, [], ◌∷◌, ◌++◌, Contains};
ghost use Rattle.tws_file.specs.declared.«ruleset».Ruleset.{Ruleset as Rules};
ghost use Rattle.tws_best.specs.Best.{KeyedBody, Collected, IsCollectionOf, IsSolutionIn, IsBestOver};
ghost use Rattle.tws_compare.specs.Part.{IsBetterPart, HasNothingBetter};
ghost use Rattle.archive_mirrors.specs.Archives.{Archives, Copy, Event, start, run, run_from, AllMayHappen, own_of, outside_of};
ghost use Rattle.archive_mirrors.specs.Reaching.{Reaches, Syncs, HoldsText, IsNoWorse, AllReach, OnlyAt};

/// Whatever the archives take from one another, each collection is the best over texts that came from outside: over all
/// that its archive itself took, and over nothing that no archive took from outside.
pub fn safety()
    ensures best { (events : List Event) → AllMayHappen events start → (rules : Rules) (here : ℕ) (c : Collected) →
        IsCollectionOf rules ((run events).taken here) c ↔ IsCollectionOf rules ((run events).sources rules here) c }
    ensures own { (events : List Event) (rules : Rules) (here : ℕ) (text : List ℕ) → Contains (own_of here events) text →
        Contains ((run events).sources rules here) text }
    ensures outside { (events : List Event) → AllMayHappen events start → (rules : Rules) (here : ℕ) (text : List ℕ) →
        Contains ((run events).sources rules here) text → Contains (outside_of events) text }
    // So no collection has a solution that is in none of these texts.
    ensures entries { (events : List Event) → AllMayHappen events start → (rules : Rules) (here : ℕ) (c : Collected) →
        IsCollectionOf rules ((run events).taken here) c → (e : KeyedBody) → Contains c.entries e →
        IsSolutionIn rules (outside_of events) e }
{}

/// Taking another's collection, or only what of it is better than in a copy of one's own, however old, gives the best over
/// the texts of both. A collection of the other ruleset changes nothing.
pub fn absorption()
    ensures whole { (rules : Rules) (theirs own : List (List ℕ)) (text : List ℕ) (c : Collected) → IsBestOver rules theirs text →
        IsCollectionOf rules (own ++ text ∷ []) c ↔ IsCollectionOf rules (own ++ theirs) c }
    ensures better { (rules : Rules) (theirs own earlier : List (List ℕ)) (fetched old text : List ℕ) (c : Collected) →
        IsBestOver rules theirs fetched → IsBestOver rules earlier old → ((t : List ℕ) → Contains earlier t → Contains own t) →
        IsBetterPart fetched old text → IsCollectionOf rules (own ++ text ∷ []) c ↔ IsCollectionOf rules (own ++ theirs) c }
    ensures apart { (rules other : Rules) (theirs own : List (List ℕ)) (text : List ℕ) (c : Collected) → rules ≢ other →
        IsBestOver rules theirs text → IsCollectionOf other (own ++ text ∷ []) c ↔ IsCollectionOf other own c }
{}

/// Archives that stand for the same texts have the same collection, byte for byte. So once each archive has reached one
/// since the last text came from outside, its collection is the best over all texts from outside; and if that holds of all, all
/// have the same bytes.
pub fn convergence()
    ensures alike { (first second : List Event) → AllMayHappen first start → AllMayHappen second start → (rules : Rules) (here there : ℕ) →
        ((t : List ℕ) → Contains ((run first).sources rules here) t ↔ Contains ((run second).sources rules there) t) → (x y : List ℕ) →
        IsBestOver rules ((run first).taken here) x → IsBestOver rules ((run second).taken there) y → x ≡ y }
    ensures all { (before after : List Event) → AllMayHappen (before ++ after) start → outside_of after ≡ [] →
        (rules : Rules) (archives : List ℕ) → OnlyAt archives before → (here : ℕ) → AllReach rules (run before) after archives here →
        (text : List ℕ) → IsBestOver rules ((run (before ++ after)).taken here) text →
        IsBestOver rules (outside_of (before ++ after)) text }
    ensures equal { (before after : List Event) → AllMayHappen (before ++ after) start → outside_of after ≡ [] →
        (rules : Rules) (archives : List ℕ) → OnlyAt archives before → (here there : ℕ) → AllReach rules (run before) after archives here →
        AllReach rules (run before) after archives there → (x y : List ℕ) → IsBestOver rules ((run (before ++ after)).taken here) x →
        IsBestOver rules ((run (before ++ after)).taken there) y → x ≡ y }
{}

/// What makes an archive reach another: a sync, however late its put; one sync after the other; and it stays reached.
pub fn reaching()
    ensures sync { (rules : Rules) (w : Archives) (events : List Event) (there here : ℕ) → Syncs rules w events there here →
        Reaches rules w events there here }
    ensures then { (rules : Rules) (w : Archives) (first second : List Event) (there between here : ℕ) →
        Reaches rules w first there between → Reaches rules (run_from first w) second between here →
        Reaches rules w (first ++ second) there here }
    ensures itself { (rules : Rules) (w : Archives) (events : List Event) (here : ℕ) → Reaches rules w events here here }
    // So it is enough that all reach one archive, and then that one each other.
    ensures hub { (rules : Rules) (w : Archives) (first second : List Event) (archives : List ℕ) (hub here : ℕ) →
        AllReach rules w first archives hub → Reaches rules (run_from first w) second hub here →
        AllReach rules w (first ++ second) archives here }
{}

/// A later collection of an archive has for each solution of an earlier one one that is no worse, whatever has happened.
pub fn never_worse()
    ensures { (events : List Event) (w : Archives) (rules : Rules) (here : ℕ) (old new : Collected) →
        IsCollectionOf rules (w.taken here) old → IsCollectionOf rules ((run_from events w).taken here) new → IsNoWorse old new }
{}

/// A text that one archive took from outside is in the collection of each archive that it has reached, and stays there,
/// whatever happens later: also if the first archive has no further event, since it is lost.
pub fn durable()
    ensures text { (before middle after : List Event) → AllMayHappen (before ++ (middle ++ after)) start →
        (rules : Rules) (there here : ℕ) (text : List ℕ) → Contains (own_of there before) text →
        Reaches rules (run before) middle there here → (c : Collected) →
        IsCollectionOf rules ((run (before ++ (middle ++ after))).taken here) c → HoldsText c text }
    // The same of all that was in its collection.
    ensures collection { (before middle after : List Event) → AllMayHappen (before ++ (middle ++ after)) start →
        (rules : Rules) (there here : ℕ) → Reaches rules (run before) middle there here → (old new : Collected) →
        IsCollectionOf rules ((run before).taken there) old → IsCollectionOf rules ((run (before ++ (middle ++ after))).taken here) new →
        IsNoWorse old new }
{}

/// Each event can happen: any texts have a collection, and of any two copies of one ruleset one has a better part. Both are one
/// text only, so the rest of an event determines it.
pub fn possible()
    ensures fetch { (rules : Rules) (texts : List (List ℕ)) → (text : List ℕ) × IsBestOver rules texts text }
    ensures one_fetch { (rules : Rules) (texts : List (List ℕ)) (x y : List ℕ) → IsBestOver rules texts x → IsBestOver rules texts y →
        x ≡ y }
    ensures better { (events : List Event) → AllMayHappen events start → (copy own : Copy) → Contains (run events).copies copy →
        Contains (run events).copies own → own.rules ≡ copy.rules → (text : List ℕ) × IsBetterPart copy.text own.text text }
    ensures one_better { (mine theirs x y : List ℕ) → IsBetterPart mine theirs x → IsBetterPart mine theirs y → x ≡ y }
{}

/// Nothing of a collection is better than the same collection; and where nothing of either of two is better than the other,
/// they are the same bytes. So a sync that puts nothing has left nothing to put.
pub fn nothing_to_put()
    ensures itself { (rules : Rules) (texts : List (List ℕ)) (text : List ℕ) → IsBestOver rules texts text → HasNothingBetter text text }
    ensures both { (rules : Rules) (xs ys : List (List ℕ)) (x y : List ℕ) → IsBestOver rules xs x → IsBestOver rules ys y →
        HasNothingBetter x y → HasNothingBetter y x → x ≡ y }
{}
