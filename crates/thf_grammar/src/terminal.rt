//! What the grammar tells apart among tokens.
ghost use Rattle.std.specs.Prelude.{◌≡◌};
ghost use Rattle.thf_grammar.specs.Internal.Marks.{is_mark, same_mark};

use crate::connective::{Binder, Conn};

/// A mark: `(`, `)`, `[`, `]`, `,`, `.`, `:`, `>` and `@`, in this order.
#[derive(Clone, Copy)]
pub enum Mark {
    Open,
    Close,
    OpenList,
    CloseList,
    Comma,
    Stop,
    Colon,
    Arrow,
    At,
}

impl Mark {
    pub fn is(self, other: Mark) -> bool
        ensures { result ≡ same_mark self other }
    {
        matches!(
            (self, other),
            (Mark::Open, Mark::Open)
                | (Mark::Close, Mark::Close)
                | (Mark::OpenList, Mark::OpenList)
                | (Mark::CloseList, Mark::CloseList)
                | (Mark::Comma, Mark::Comma)
                | (Mark::Stop, Mark::Stop)
                | (Mark::Colon, Mark::Colon)
                | (Mark::Arrow, Mark::Arrow)
                | (Mark::At, Mark::At)
        )
    }
}

/// A token, as the grammar sees it.
#[derive(Clone, Copy)]
pub enum Terminal {
    Mark(Mark),
    Conn(Conn),
    /// `=`, or `!=` where it isn't positive.
    Equality(bool),
    Binder(Binder),
    /// `!!`, or `??` where not all are meant.
    Quant(bool),
    /// `$tType`
    TypeOfTypes,
    /// `$o` and `$oType`
    Form,
    /// `$i` and `$iType`
    Indiv,
    /// `$true` and `$false`
    Truth(bool),
    Lower,
    Upper,
    Quoted,
    Integer,
    Distinct,
    End,
    /// A token that stands nowhere in the grammar.
    Other,
}

impl Terminal {
    /// Whether it is this mark.
    pub fn is_mark(self, mark: Mark) -> bool
        ensures { result ≡ is_mark mark self }
    {
        match self {
            Terminal::Mark(found) => mark.is(found),
            _ => false,
        }
    }
}
