//! Cuts, where a check refuses them.

ghost use Rattle.std.specs.Prelude.{◌≡◌};
ghost use Rattle.tableau_calculus.specs.CutFree.{is_cut_use};
ghost use Rattle.refute_print.specs.Named.{Names};
ghost use Rattle.refute_check.specs.Numbered.{numbered_rule};
ghost use Rattle.refute_check.specs.Internal.Strictly.{cut_or, with_cut};

use refute_print::TextRule;
use tableau_calculus::{RuleUse, Why};

/// Whether the rule is the cut.
pub(crate) fn is_cut(rule: &TextRule) -> bool
    ensures { (names : Names) → result ≡ is_cut_use (numbered_rule names rule.now) }
{
    match rule {
        RuleUse::Cut(_) => true,
        RuleUse::AtOne(_, _) => false,
        RuleUse::AtTwo(_, _, _) => false,
        RuleUse::AllPos(_, _) => false,
        RuleUse::WithPredicate(_, _) => false,
    }
}

/// Of the causes why a cut is refused, the first: its types, and that it is a cut.
fn cut_or(why: Why) -> Why
    ensures { result ≡ cut_or why }
{
    match why {
        Why::Typing => Why::Typing,
        Why::Form => Why::Cut,
        Why::Start => Why::Cut,
        Why::End => Why::Cut,
        Why::Twice => Why::Cut,
        Why::Cut => Why::Cut,
        Why::Principal => Why::Cut,
        Why::Child => Why::Cut,
        Why::Last => Why::Cut,
        Why::Defs => Why::Cut,
    }
}

/// Why a line fails, by how it fails where cuts are taken. In a strict check a cut fails.
pub(crate) fn with_cut(strict: bool, is_cut: bool, found: Option<Why>) -> Option<Why>
    ensures { result ≡ with_cut strict is_cut found }
{
    if !strict || !is_cut {
        return found;
    }
    match found {
        None => Some(Why::Cut),
        Some(why) => Some(cut_or(why)),
    }
}
