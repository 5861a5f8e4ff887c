//! Connectives and binders.

/// A connective: `~`, `&`, `|`, `=>`, `<=`, `<=>`, `<~>`, `~|` and `~&`, in this order.
#[derive(Clone, Copy, PartialEq, Eq)]
pub enum Conn {
    Not,
    And,
    Or,
    Imp,
    If,
    Iff,
    Xor,
    Nor,
    Nand,
}

/// A binder: `!`, `?`, `^`, `@+` and `@-`, in this order.
#[derive(Clone, Copy, PartialEq, Eq)]
pub enum Binder {
    All,
    Exists,
    Lam,
    Choice,
    Desc,
}
