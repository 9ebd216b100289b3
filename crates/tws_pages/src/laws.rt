//! What holds for each page. These functions do nothing: their contracts are theorems.

ghost use Rattle.std.specs.Prelude.{◌≡◌, ℕ, true, false, List, ◌∷◌, ◌++◌};
ghost use Rattle.std.specs.List.{list_all, list_any};
ghost use Rattle.byte_output.specs.Bytes.{IsBytes};
ghost use Rattle.tws_pages.specs.Page.{has_part, page_body, page_end, page_start, page_style, table_end, table_head, ways_out};
ghost use Rattle.tws_pages.specs.Escaping.{BeginsReference, Shows, escaped, is_mark, is_printable, shown_password};
ghost use Rattle.tws_pages.specs.SetName.{shown_name};
ghost use Rattle.tws_pages.specs.LevelTable.{level_table_head};
ghost use Rattle.tws_pages.specs.SideBySide.{sides_head};

/// The markup that every page has contains no script and no reference to anything outside the page.
pub fn self_contained()
    ensures { list_any (λ part. has_part part (page_start ++ page_style ++ page_body ++ table_head ++ level_table_head ++ sides_head ++ table_end ++ page_end)) ways_out ≡ false }
{}

/// In the text of a password's cell no character that has a meaning in HTML stands for itself: there is no `<`, `>`, `"` or
/// `'`, and each `&` begins one of five references. A password of printable characters shows as itself. So it is with any
/// text that is escaped, such as a title, and with the name of a level set.
pub fn escaped()
    ensures marks { (password : List ℕ) → IsBytes password → list_any is_mark (shown_password password) ≡ false }
    ensures shown { (password : List ℕ) → list_all is_printable password ≡ true → Shows (shown_password password) password }
    ensures text_marks { (chars : List ℕ) → list_any is_mark (escaped chars) ≡ false }
    ensures text_references { (chars front rest : List ℕ) → escaped chars ≡ front ++ 38 ∷ rest → BeginsReference (38 ∷ rest) }
    ensures name_shown { (name : List ℕ) → Shows (escaped (shown_name name)) (shown_name name) }
    ensures references { (password front rest : List ℕ) → IsBytes password → shown_password password ≡ front ++ 38 ∷ rest → BeginsReference (38 ∷ rest) }
{}
