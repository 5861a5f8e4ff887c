//! Normal forms of terms of simple type theory by hereditary substitution: the definition and its laws.
#![tactic(auto)]

mod law;

pub use law::{
    apply_keeps_types, apply_keeps_values, arguments_are_replaced_first,
    canonical_terms_are_normal, lifting_keeps_values, normal_forms_are_canonical,
    normal_forms_keep_values, other_heads_stay, replacing_keeps_values,
};
