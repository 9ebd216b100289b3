//! What holds of every comparison and of every file without a level. These functions do nothing: each contract is a
//! theorem.

ghost use Rattle.std.specs.Prelude.{◌≡◌, ◌≢◌, ◌↔◌, ℕ, List, ◌++◌, Some, Contains};
ghost use Rattle.std.specs.List.Sorted.{IsStrictlySortedBy};
ghost use Rattle.tws_file.specs.declared.key.Key.{Key as Level};
ghost use Rattle.tws_file.specs.Text.{File, Record as Plain};
ghost use Rattle.tws_best.specs.Best.{KeyedBody, HasKey, IsBestOf, key_cmp, solved_in};
ghost use Rattle.tws_best.specs.Choice.{best_of};
ghost use Rattle.tws_compare.specs.declared.standing.Standing.TheVariants.{Equal};
ghost use Rattle.tws_compare.specs.Standing.{standing_of};
ghost use Rattle.tws_compare.specs.Compare.{best_in, keys_of, sides_of, better_entries};
ghost use Rattle.tws_compare.specs.Without.{records_without};
ghost use Rattle.tws_compare.specs.Dropped.{IsSolutionOf, IsSubsequence};

/// What is left of a file without a level are the records that are not solutions of it, in order.
pub fn exactly_the_level()
    ensures left { (key : Level) (rs : List Plain) (r : Plain) → Contains (records_without key rs) r ↔ (Contains rs r × (IsSolutionOf key r → ⊥)) }
    ensures in_order { (key : Level) (rs : List Plain) → IsSubsequence (records_without key rs) rs }
{}

/// The best solutions of a file without a level are those of the file but for that level.
pub fn other_levels_stay()
    ensures { (key : Level) (rs : List Plain) (e : KeyedBody) → Contains (best_of (solved_in (records_without key rs))) e ↔ (Contains (best_of (solved_in rs)) e × (e.key ≢ key)) }
{}

/// The keys of solutions rise, and are those that some solution has.
pub fn each_level_once()
    ensures rising { (es : List KeyedBody) → IsStrictlySortedBy key_cmp (keys_of es) }
    ensures every { (es : List KeyedBody) (key : Level) → Contains (keys_of es) key ↔ HasKey es key }
{}

/// Two solutions are equal exactly if their bodies are.
pub fn equal_bodies()
    ensures { (a b : List ℕ) → (standing_of (Some a) (Some b) ≡ Equal) ↔ (a ≡ b) }
{}

/// Merged into their best solutions, what is better of mine leaves what all of mine would leave, and all of it stays.
pub fn better_is_enough()
    ensures enough { (mine theirs : File) (es : List KeyedBody) → IsBestOf (Contains (best_in theirs ++ solved_in mine.records)) es ↔ IsBestOf (Contains (best_in theirs ++ better_entries (sides_of mine theirs))) es }
    ensures stays { (mine theirs : File) (es : List KeyedBody) (e : KeyedBody) → IsBestOf (Contains (best_in theirs ++ better_entries (sides_of mine theirs))) es → Contains (better_entries (sides_of mine theirs)) e → Contains es e }
{}
