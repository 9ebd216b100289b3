//! What holds of every set of solutions and of every collection, whatever code holds it. These functions do nothing:
//! each contract is a theorem.

ghost use Rattle.std.specs.Prelude.{◌≡◌, ◌↔◌, ℕ, List, [], ◌∷◌, ◌++◌, Contains};
ghost use Rattle.std.specs.Cmp.{IsTotalOrder};
ghost use Rattle.std.specs.declared.cmp.Ordering.TheVariants.{Equal};
ghost use Rattle.tws_file.specs.declared.«ruleset».Ruleset.{Ruleset as Rules};
ghost use Rattle.tws_file.specs.Text.{Solution, solution, body_of, IsSolution, File, IsText, IsReadable};
ghost use Rattle.tws_best.specs.Rank.{ticks_of, rank_of, rank_cmp};
ghost use Rattle.tws_best.specs.Choice.{best_of};
ghost use Rattle.tws_best.specs.Best.{KeyedBody, IsBest, IsBestOf, IsSolutionIn, IsCollectionOf, Collected, IsCollected, solutions_of, collection_text};

/// The order of ranks is total.
pub fn ranks_in_order()
    ensures { IsTotalOrder rank_cmp }
{}

/// Ranks are equal only for equal bodies.
pub fn one_rank()
    ensures { (a b : List ℕ) → rank_cmp (rank_of a) (rank_of b) ≡ Equal → a ≡ b }
{}

/// The ticks in the body of a solution's record, at the place where a rank reads them, are the solution's.
pub fn ticks_in_body()
    ensures { (s : Solution) → IsSolution s → ticks_of (body_of (solution s)) ≡ s.ticks }
{}

/// A set of solutions has at most one collection of the best.
pub fn one_best()
    ensures { (xs ds es : List KeyedBody) → IsBestOf (Contains xs) ds → IsBestOf (Contains xs) es → ds ≡ es }
{}

/// A solution is in the collection exactly if it is best: no other solution of the set with its key has a lower rank.
pub fn exactly_the_best()
    ensures { (xs es : List KeyedBody) (e : KeyedBody) → IsBestOf (Contains xs) es → (Contains es e ↔ IsBest (Contains xs) e) }
{}

/// Each list of solutions has a collection of the best, which a function returns.
pub fn some_best()
    ensures { (xs : List KeyedBody) → IsBestOf (Contains xs) (best_of xs) }
{}

/// The best of some solutions' best and of others are the best of all together, and the other way round.
pub fn best_of_best()
    ensures together { (xs ys ms ns : List KeyedBody) → IsBestOf (Contains xs) ms → IsBestOf (Contains (ms ++ ys)) ns → IsBestOf (Contains (xs ++ ys)) ns }
    // More solutions can be merged into the second of two, or into the best of both: the result is the same.
    ensures beside { (cs rs ss ms ds es : List KeyedBody) → IsBestOf (Contains (cs ++ rs)) ds → IsBestOf (Contains (rs ++ ss)) ms → IsBestOf (Contains (cs ++ ms)) es → IsBestOf (Contains (ds ++ ss)) es }
    ensures apart { (xs ys ms ns : List KeyedBody) → IsBestOf (Contains xs) ms → IsBestOf (Contains (xs ++ ys)) ns → IsBestOf (Contains (ms ++ ys)) ns }
{}

/// Files are treated as a set: their order and repeats have no effect on what is best.
pub fn files_as_a_set()
    ensures { («ruleset» : Rules) (files more : List File) (es : List KeyedBody) → ((f : File) → Contains files f ↔ Contains more f) → IsBestOf (Contains (solutions_of «ruleset» files)) es → IsBestOf (Contains (solutions_of «ruleset» more)) es }
{}

/// Texts are treated as a set: their order and repeats have no effect on the collection over them.
pub fn texts_as_a_set()
    ensures { («ruleset» : Rules) (texts more : List (List ℕ)) (c : Collected) → ((t : List ℕ) → Contains texts t ↔ Contains more t) → IsCollectionOf «ruleset» texts c → IsCollectionOf «ruleset» more c }
{}

/// There is at most one collection over these texts.
pub fn one_collection()
    ensures { («ruleset» : Rules) (texts : List (List ℕ)) (c d : Collected) → IsCollectionOf «ruleset» texts c → IsCollectionOf «ruleset» texts d → c ≡ d }
{}

/// The collection over no texts is empty.
pub fn collection_of_none()
    ensures { («ruleset» : Rules) (c : Collected) → c.ruleset ≡ «ruleset» → c.entries ≡ [] → IsCollectionOf «ruleset» [] c }
{}

/// Merging a file makes the collection over one more text. Bytes that are not a file's text change nothing.
pub fn one_more_text()
    ensures readable { («ruleset» : Rules) (texts : List (List ℕ)) (text : List ℕ) (f : File) (c d : Collected) → IsCollectionOf «ruleset» texts c → IsText text f → d.ruleset ≡ c.ruleset → IsBestOf (Contains (c.entries ++ solutions_of c.ruleset (f ∷ []))) d.entries → IsCollectionOf «ruleset» (texts ++ text ∷ []) d }
    ensures unreadable { («ruleset» : Rules) (texts : List (List ℕ)) (text : List ℕ) (c : Collected) → IsCollectionOf «ruleset» texts c → (IsReadable text → ⊥) → IsCollectionOf «ruleset» (texts ++ text ∷ []) c }
{}

/// A collection's text is a file's text, and the best of that file are the collection again.
pub fn read_back()
    ensures readable { (c : Collected) → IsCollected c → IsReadable (collection_text c) }
    ensures loaded { (c d : Collected) (f : File) → IsCollected c → IsText (collection_text c) f → d.ruleset ≡ f.ruleset → IsBestOf (Contains (solutions_of f.ruleset (f ∷ []))) d.entries → d ≡ c }
    ensures itself { (c : Collected) → IsCollected c → IsCollectionOf c.ruleset (collection_text c ∷ []) c }
{}
