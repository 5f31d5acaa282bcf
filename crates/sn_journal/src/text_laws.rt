//! What the texts of journals are, as contracts of functions that do nothing.
ghost use Rattle.sn_journal.specs.JournalText.{fits, journal_text, line_of};
ghost use Rattle.sn_journal.specs.Outline.{IsFirstFault, IsOutline};
ghost use Rattle.sn_journal.specs.declared.entry.Entry.{Entry};
ghost use Rattle.sn_journal.specs.declared.line.Line.{Line};
ghost use Rattle.std.specs.List.{list_all};
ghost use Rattle.std.specs.Prelude.{List, map, true, ℕ, ◌≡◌};

/// A text is that of one list of lines, or it has one first line that isn't of the form, and not both.
pub fn one_outline()
    ensures lines { (text : List ℕ) (these those : List Line) → IsOutline text these → IsOutline text those → these ≡ those }
    ensures fault { (text : List ℕ) (m n : ℕ) → IsFirstFault text m → IsFirstFault text n → m ≡ n }
    ensures either { (text : List ℕ) (n : ℕ) (lines : List Line) → IsFirstFault text n → IsOutline text lines → ⊥ }
{}

/// The text of a journal is read back as the lines of its entries, and as no others.
pub fn text_reads_back()
    ensures read { (entries : List Entry)
        → list_all fits (map line_of entries) ≡ true → IsOutline (journal_text entries) (map line_of entries) }
    ensures only { (entries : List Entry) (lines : List Line)
        → list_all fits (map line_of entries) ≡ true → IsOutline (journal_text entries) lines → lines ≡ map line_of entries }
{}
