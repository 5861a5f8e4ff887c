//! Normal forms of terms of simple type theory, worked out on trees.
#![tactic(auto)]

mod apply;
mod eta;
mod lift;
mod normal;
mod part;

pub use apply::apply_nf;
pub use eta::eta_long;
pub use lift::lift_nf;
pub use normal::normalise;
pub use normal_forms::{
    apply_keeps_types, apply_keeps_values, arguments_are_replaced_first,
    canonical_terms_are_normal, lifting_keeps_values, normal_forms_are_canonical,
    normal_forms_keep_values, other_heads_stay, replacing_keeps_values,
};
