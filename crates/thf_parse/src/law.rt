//! Laws about the trees of tokens.
ghost use Rattle.std.specs.Prelude.{◌≡◌, ℕ, ◌⊎◌, List};
ghost use Rattle.thf_grammar.specs.declared.token.Token.{Token};
ghost use Rattle.thf_grammar.specs.Reading.{AreTokens};
ghost use Rattle.thf_grammar.specs.Trees.{StatementTree};
ghost use Rattle.thf_grammar.specs.Words.{Lexeme, Word, plain, lexemes};
ghost use Rattle.thf_grammar.specs.Statements.{IsFile};
ghost use Rattle.thf_parse.specs.Parsing.{HasTree, IsWrongAt, IsTooDeepAt};
ghost use Rattle.thf_grammar.specs.Printable.{DeclaredArePrintable, IncludedArePrintable};

/// Tokens have one tree at most.
pub fn one_tree()
    ensures { (words others : List Word) (tree another : List StatementTree) → plain words ≡ plain others → IsFile words tree
        → IsFile others another → tree ≡ another }
{}

/// The tokens of a file have a tree, or they are refused at one place: at a wrong token, or at one that is too deep.
pub fn one_refusal()
    ensures some { (limit : ℕ) (bytes : List ℕ) (tokens : List Token) → AreTokens bytes tokens
        → ((tree : List StatementTree) × HasTree limit (lexemes bytes tokens) tree)
        ⊎ ((at : ℕ) × (IsWrongAt limit (lexemes bytes tokens) at ⊎ IsTooDeepAt limit (lexemes bytes tokens) at)) }
    ensures tree_not_wrong { (limit : ℕ) (ts : List Lexeme) (tree : List StatementTree) (at : ℕ) → HasTree limit ts tree
        → IsWrongAt limit ts at → ⊥ }
    ensures tree_not_deep { (limit : ℕ) (ts : List Lexeme) (tree : List StatementTree) (at : ℕ) → HasTree limit ts tree
        → IsTooDeepAt limit ts at → ⊥ }
    ensures wrong_not_deep { (limit : ℕ) (ts : List Lexeme) (at other : ℕ) → IsWrongAt limit ts at → IsTooDeepAt limit ts other → ⊥ }
    ensures one_wrong { (limit : ℕ) (ts : List Lexeme) (at other : ℕ) → IsWrongAt limit ts at → IsWrongAt limit ts other → at ≡ other }
    ensures one_deep { (limit : ℕ) (ts : List Lexeme) (at other : ℕ) → IsTooDeepAt limit ts at → IsTooDeepAt limit ts other → at ≡ other }
{}

/// The names that a file declares are printable.
pub fn declared_are_printable()
    ensures { (bytes : List ℕ) (tokens : List Token) (limit : ℕ) (tree : List StatementTree) → AreTokens bytes tokens
        → HasTree limit (lexemes bytes tokens) tree → DeclaredArePrintable tree }
{}

/// The names of the files that a file includes are printable, and so are the names that it selects.
pub fn included_are_printable()
    ensures { (bytes : List ℕ) (tokens : List Token) (limit : ℕ) (tree : List StatementTree) → AreTokens bytes tokens
        → HasTree limit (lexemes bytes tokens) tree → IncludedArePrintable tree }
{}
