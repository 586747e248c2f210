//! The grammar of syntax as definitions: which tokens are a path, a type, an expression, and with which tree.
#![tactic(auto)]

mod cursor;
mod fail;
mod literal;
mod look;
mod token;
mod word;

pub use cursor::Cursor;
pub use fail::ReadFail;
pub use literal::lit_of;
pub use look::{
    ArgumentStart, ArgumentsStart, AtomStart, Infix, OperandStart, PostfixStart, TypeStart,
    argument_start, arguments_start, atom_start, begins_closure, begins_constant, begins_operand,
    operand_start, operator_at, operator_of, postfix_start, type_start,
};
pub use token::{
    after_one, contents_of, ident_of, is_and, is_arrow, is_bar, is_closed_dots, is_colon,
    is_colons, is_comma, is_dots, is_equals, is_greater, is_group, is_joint, is_less, is_mark,
    is_pair, is_plus, is_question, is_semicolon, is_turbofish, lifetime_of, literal_of, mark_of,
    span_of,
};
pub use word::{Word, name_of, next_word, peek, segment_word, word_of};
