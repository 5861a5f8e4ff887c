//! Laws of texts. Each function does nothing: what it says stands in its contract.
ghost use Rattle.std.specs.Prelude.{◌≡◌, ℕ, List};
ghost use Rattle.refute_print.specs.Trees.{RefutationTree};
ghost use Rattle.refute_print.specs.Text.{text_lines, as_bytes};
ghost use Rattle.outside.specs.Lines.{lines_of};
ghost use Rattle.refute_text.specs.Reading.{HasText, TextStands, TextReading, read, ReadsText};

/// Lines are read in one way at most.
pub fn one_reading()
    ensures { (lines : List (List ℕ)) (a b : TextReading) → ReadsText lines a → ReadsText lines b → a ≡ b }
{}

/// The text of a refutation, which `write_text` writes, is read back between a start line and an end line.
pub fn texts_read_back()
    ensures { (bytes : List ℕ) (r : RefutationTree) (first : ℕ) → HasText r → TextStands bytes r first
        → ReadsText (lines_of bytes) (read r first) }
{}

/// No two refutations have the same text.
pub fn one_refutation()
    ensures { (r s : RefutationTree) → HasText r → HasText s → as_bytes (text_lines r) ≡ as_bytes (text_lines s) → r ≡ s }
{}
