//! The numbers in lines. Each is a number of the machine, so there is nothing to look at: what is known stands in the contracts.
ghost use Rattle.std.specs.Prelude.{◌<◌, ◌^◌};
ghost use Rattle.std.specs.List.{AllByRecursion};
ghost use Rattle.refute_print.specs.Limits.{IsChild};
ghost use Rattle.refute_share.specs.RuleView.{the_rule_use};
ghost use Rattle.small_rebuilt.specs.Small.{HasPlaces, HasNumbers};

use refute_share::{SharedLine, SharedRule};
use tableau_calculus::{Child, Children, RuleUse};

/// A place's number is in range.
fn place_in_range(_place: usize)
    ensures { _place < 2 ^ 64 }
{}

/// The numbers of the places that a rule is used at are in range.
fn rule_in_range(rule: &SharedRule)
    ensures { HasPlaces (the_rule_use rule.now) }
{
    match rule {
        RuleUse::AtOne(_, i) => place_in_range(*i),
        RuleUse::AtTwo(_, i, j) => {
            place_in_range(*i);
            place_in_range(*j);
        }
        RuleUse::AllPos(i, _) => place_in_range(*i),
        RuleUse::WithPredicate(_, _) => {}
        RuleUse::Cut(_) => {}
    }
}

/// A child's number is in range.
fn child_in_range(child: Child)
    ensures { IsChild child }
{
    match child {
        Child::Closed => {}
        Child::Line(_) => {}
    }
}

/// The children's numbers are in range.
fn children_in_range(children: &Children)
    ensures { AllByRecursion IsChild children.now }
{
    for i in 0..children.len() {
        child_in_range(children.at(i));
    }
}

/// The numbers in a line are in range.
pub fn line_in_range(line: &SharedLine)
    ensures { HasNumbers line.now }
{
    rule_in_range(&line.rule);
    children_in_range(&line.children);
}
