//! The grammar of spec texts: a text's tree, or its first fault.
#![tactic(auto)]

mod descent;
mod directives;
mod fault;
mod labels;
mod laws;
mod room;
mod token;
mod tree;

pub use fault::SyntaxFault;
pub use laws::{
    cut_at_open, cut_front, descent_is_read, front_is_unrefused, front_prefix, one_tree,
    parsed_by_grammar, read_is_spelled, refusal_kinds, refused_after_front, refused_at_misfit,
    refused_by_grammar, refused_kinds, shortest_prefix, spelled_is_read, unrefused_is_front,
};
pub use token::{Leaf, TempKind, TestKind, Token, TokenKind};
pub use tree::{SpecTree, parse};
