//! Laws about the texts of trees.
ghost use Rattle.std.specs.Prelude.{List, ℕ};
ghost use Rattle.thf_grammar.specs.Trees.{StatementTree};
ghost use Rattle.thf_syntax.specs.Law.{HasTokens, IsTextOf};
ghost use Rattle.thf_syntax.specs.Texts.{surface_text};

/// The tokens of a tree's text have it, places aside, wherever some list of tokens has it.
pub fn texts_have_their_trees()
    ensures { (tree : List StatementTree) → HasTokens tree → IsTextOf tree (surface_text tree) }
{}

/// Where the tokens of some bytes have a tree, some list of tokens does.
pub fn read_trees_are_printable()
    ensures { (tree : List StatementTree) (bytes : List ℕ) → IsTextOf tree bytes → HasTokens tree }
{}
