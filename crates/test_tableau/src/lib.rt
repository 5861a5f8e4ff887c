//! Witness rows with what the plain decider answers. No text has them all: a text's witness has the type of its predicate.
#![tactic(auto)]

#[cfg(test)]
mod witness_rows;
