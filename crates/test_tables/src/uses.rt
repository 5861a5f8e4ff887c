//! Uses of rules, as texts: the rule, and its principals with the term that it takes, a predicate, or the literal of a cut.
ghost use Rattle.test_tables.specs.Sound.{AreSoundTables};

use crate::refusal::RowRefused;
use crate::tables::Tables;
use literal_map::BankUse;
use refute_print::NamedRule;
use tableau_calculus::{OfPredicate, OnePlace, RuleUse, TwoPlaces};

/// The rule of the list with the name.
fn named<K: NamedRule>(name: &str) -> Option<K> {
    for rule in K::rules() {
        if rule.mark().strip_suffix(b"(") == Some(name.as_bytes()) {
            return Some(*rule);
        }
    }
    None
}

/// Two words.
fn two(words: &str) -> Result<(&str, &str), RowRefused> {
    words.split_once(' ').ok_or(RowRefused::Unread)
}

/// The use that a text stands for.
pub fn use_of(tables: &mut Tables, text: &str) -> Result<BankUse, RowRefused>
    requires { AreSoundTables tables.old }
    ensures { AreSoundTables tables.new }
{
    let (name, words) = two(text)?;
    if let Some(rule) = named::<OnePlace>(name) {
        return Ok(RuleUse::AtOne(rule, tables.signed(words)?));
    }
    if let Some(rule) = named::<TwoPlaces>(name) {
        let (first, second) = two(words)?;
        let first = tables.signed(first)?;
        let second = tables.signed(second)?;
        return Ok(RuleUse::AtTwo(rule, first, second));
    }
    if let Some(rule) = named::<OfPredicate>(name) {
        return Ok(RuleUse::WithPredicate(rule, tables.term(words)?));
    }
    match name {
        "All+" => {
            let (first, term) = two(words)?;
            let lit = tables.signed(first)?;
            Ok(RuleUse::AllPos(lit, tables.term(term)?))
        }
        "Cut" => Ok(RuleUse::Cut(tables.signed(words)?)),
        _ => Err(RowRefused::Unread),
    }
}
