//! What the tokens that come next begin. Each rule that has a choice makes it by one of these.

ghost use Rattle.std.specs.Prelude.{◌≡◌};
ghost use Rattle.syn_grammar.specs.Look as spec;

use crate::token::{
    after_one, is_and, is_colon, is_colons, is_dots, is_equals, is_group, is_joint, is_less,
    is_mark, is_question, is_turbofish, lifetime_of, literal_of, mark_of,
};
use crate::word::{Word, next_word};
use node_expr::BinOp;
use tok_types::{Delimiter, TokenTree};

/// What begins a type.
#[derive(Clone, Copy, Debug, PartialEq, Eq)]
pub enum TypeStart {
    /// `(`
    Parenthesis,
    /// `[`
    Bracket,
    /// `!`
    Never,
    /// `_`
    Infer,
    /// `&`
    Reference,
    /// `*`
    Pointer,
    /// `fn`, or a binder before it
    FnPtr,
    /// `dyn`
    TraitObject,
    /// `impl`
    ImplTrait,
    /// `<`
    Qualified,
    /// `::` or a segment
    Path,
    /// No type begins here.
    Nothing,
}

/// What follows the word of a segment.
#[derive(Clone, Copy, Debug, PartialEq, Eq)]
pub enum ArgumentsStart {
    /// `::<`
    Turbofish,
    /// `<`
    Less,
    /// `(`
    Parenthesis,
    /// No arguments follow.
    Nothing,
}

/// What begins one of the arguments in `<..>`.
#[derive(Clone, Copy, Debug, PartialEq, Eq)]
pub enum ArgumentStart {
    Lifetime,
    /// A literal or a block.
    Constant,
    /// `name =` and a literal or a block
    AssocConst,
    /// `name =` and no constant
    AssocType,
    /// `name:`
    Constraint,
    Type,
}

/// What begins an operand of an operator.
#[derive(Clone, Copy, Debug, PartialEq, Eq)]
pub enum OperandStart {
    /// `-`
    Neg,
    /// `!`
    Not,
    /// `*`
    Deref,
    /// `&`
    Reference,
    Atom(AtomStart),
}

/// What begins an expression that no mark stands before.
#[derive(Clone, Copy, Debug, PartialEq, Eq)]
pub enum AtomStart {
    Literal,
    /// `true` or `false`
    Bool,
    /// `::` or a segment
    Path,
    /// `<`
    Qualified,
    /// `(`
    Parenthesis,
    /// `[`
    Bracket,
    /// `{`
    Brace,
    /// A group without delimiters.
    Invisible,
    /// `_`
    Infer,
    /// No expression begins here.
    Nothing,
}

/// How an expression goes on behind an operand.
#[derive(Clone, Copy, Debug, PartialEq, Eq)]
pub enum PostfixStart {
    /// `(`
    Call,
    /// `.` that is no `..`
    Dot,
    /// `[`
    Index,
    /// `?`
    Try,
    /// It does not.
    Nothing,
}

/// An operator between two operands: what it is, how loosely it binds and how many marks it has.
#[derive(Clone, Copy, Debug, PartialEq, Eq)]
pub struct Infix {
    pub op: BinOp,
    /// From 1, the tightest, to 9.
    pub level: u8,
    pub width: usize,
}

// ---- types

fn type_word(word: Word) -> TypeStart
    ensures { result ≡ spec.type_word word }
{
    match word {
        Word::Name | Word::PathStart => TypeStart::Path,
        Word::Underscore => TypeStart::Infer,
        Word::For | Word::Fn => TypeStart::FnPtr,
        Word::Dyn => TypeStart::TraitObject,
        Word::Impl => TypeStart::ImplTrait,
        _ => TypeStart::Nothing,
    }
}

/// What begins a type here.
#[tactic(auto, unfolding(crate::specs::Look::type_start))]
pub fn type_start(trees: &[TokenTree]) -> TypeStart
    ensures { result ≡ spec.type_start trees.now }
{
    if is_group(Delimiter::Parenthesis, trees) {
        TypeStart::Parenthesis
    } else if is_group(Delimiter::Bracket, trees) {
        TypeStart::Bracket
    } else if is_mark('!', trees) {
        TypeStart::Never
    } else if is_and(trees) {
        TypeStart::Reference
    } else if is_mark('*', trees) {
        TypeStart::Pointer
    } else if is_less(trees) {
        TypeStart::Qualified
    } else if is_colons(trees) {
        TypeStart::Path
    } else {
        type_word(next_word(trees))
    }
}

// ---- arguments of a segment

/// What follows the word of a segment. In a type `<` may stand for `::<`, and inputs in parentheses
/// may follow.
#[tactic(auto, unfolding(crate::specs::Look::arguments_start))]
pub fn arguments_start(in_type: bool, trees: &[TokenTree]) -> ArgumentsStart
    ensures { result ≡ spec.arguments_start in_type trees.now }
{
    if is_turbofish(trees) {
        ArgumentsStart::Turbofish
    } else if in_type && is_less(trees) {
        ArgumentsStart::Less
    } else if in_type && is_group(Delimiter::Parenthesis, trees) {
        ArgumentsStart::Parenthesis
    } else {
        ArgumentsStart::Nothing
    }
}

/// Whether a literal, `true`, `false` or a block begins here.
#[tactic(auto, unfolding(crate::specs::Look::begins_constant))]
pub fn begins_constant(trees: &[TokenTree]) -> bool
    ensures { result ≡ spec.begins_constant trees.now }
{
    literal_of(trees).is_some()
        || matches!(next_word(trees), Word::True | Word::False)
        || is_group(Delimiter::Brace, trees)
}

fn argument_name(after: &[TokenTree]) -> ArgumentStart
    ensures { result ≡ spec.argument_name after.now }
{
    if is_equals(after) {
        if begins_constant(after_one(after)) {
            ArgumentStart::AssocConst
        } else {
            ArgumentStart::AssocType
        }
    } else if is_colon(after) {
        ArgumentStart::Constraint
    } else {
        ArgumentStart::Type
    }
}

/// What begins one of the arguments in `<..>` here.
#[tactic(auto, unfolding(crate::specs::Look::argument_start))]
pub fn argument_start(trees: &[TokenTree]) -> ArgumentStart
    ensures { result ≡ spec.argument_start trees.now }
{
    if lifetime_of(trees).is_some() {
        ArgumentStart::Lifetime
    } else if begins_constant(trees) {
        ArgumentStart::Constant
    } else {
        match next_word(trees) {
            Word::Name => argument_name(after_one(trees)),
            _ => ArgumentStart::Type,
        }
    }
}

// ---- expressions

fn atom_word(word: Word) -> AtomStart
    ensures { result ≡ spec.atom_word word }
{
    match word {
        Word::Name | Word::PathStart => AtomStart::Path,
        Word::True | Word::False => AtomStart::Bool,
        Word::Underscore => AtomStart::Infer,
        _ => AtomStart::Nothing,
    }
}

/// What begins an expression here that no mark stands before.
#[tactic(auto, unfolding(crate::specs::Look::atom_start))]
pub fn atom_start(trees: &[TokenTree]) -> AtomStart
    ensures { result ≡ spec.atom_start trees.now }
{
    if is_group(Delimiter::Parenthesis, trees) {
        AtomStart::Parenthesis
    } else if is_group(Delimiter::Bracket, trees) {
        AtomStart::Bracket
    } else if is_group(Delimiter::Brace, trees) {
        AtomStart::Brace
    } else if is_group(Delimiter::None, trees) {
        AtomStart::Invisible
    } else if literal_of(trees).is_some() {
        AtomStart::Literal
    } else if is_less(trees) {
        AtomStart::Qualified
    } else if is_colons(trees) {
        AtomStart::Path
    } else {
        atom_word(next_word(trees))
    }
}

/// What begins an operand here.
#[tactic(auto, unfolding(crate::specs::Look::operand_start))]
pub fn operand_start(trees: &[TokenTree]) -> OperandStart
    ensures { result ≡ spec.operand_start trees.now }
{
    if is_mark('-', trees) {
        OperandStart::Neg
    } else if is_mark('!', trees) {
        OperandStart::Not
    } else if is_mark('*', trees) {
        OperandStart::Deref
    } else if is_and(trees) {
        OperandStart::Reference
    } else {
        OperandStart::Atom(atom_start(trees))
    }
}

/// Whether an operand of an operator begins here.
#[tactic(auto, unfolding(crate::specs::Look::begins_operand))]
pub fn begins_operand(trees: &[TokenTree]) -> bool
    ensures { result ≡ spec.begins_operand trees.now }
{
    !matches!(operand_start(trees), OperandStart::Atom(AtomStart::Nothing))
}

/// Whether a closure begins here.
#[tactic(auto, unfolding(crate::specs::Look::begins_closure))]
pub fn begins_closure(trees: &[TokenTree]) -> bool
    ensures { result ≡ spec.begins_closure trees.now }
{
    matches!(next_word(trees), Word::Move) || is_mark('|', trees)
}

/// How an expression goes on behind an operand.
#[tactic(auto, unfolding(crate::specs::Look::postfix_start))]
pub fn postfix_start(trees: &[TokenTree]) -> PostfixStart
    ensures { result ≡ spec.postfix_start trees.now }
{
    if is_group(Delimiter::Parenthesis, trees) {
        PostfixStart::Call
    } else if is_group(Delimiter::Bracket, trees) {
        PostfixStart::Index
    } else if is_mark('.', trees) && !is_dots(trees) {
        PostfixStart::Dot
    } else if is_question(trees) {
        PostfixStart::Try
    } else {
        PostfixStart::Nothing
    }
}

// ---- operators between two operands

fn level_of(op: BinOp) -> u8
    ensures { result ≡ spec.level_of op }
{
    match op {
        BinOp::Mul | BinOp::Div | BinOp::Rem => 1,
        BinOp::Add | BinOp::Sub => 2,
        BinOp::Shl | BinOp::Shr => 3,
        BinOp::BitAnd => 4,
        BinOp::BitXor => 5,
        BinOp::BitOr => 6,
        BinOp::Eq | BinOp::Ne | BinOp::Lt | BinOp::Gt | BinOp::Le | BinOp::Ge => 7,
        BinOp::And => 8,
        BinOp::Or => 9,
    }
}

fn before_equals(ch: char) -> Option<BinOp>
    ensures { result ≡ spec.before_equals ch }
{
    match ch {
        '=' => Some(BinOp::Eq),
        '!' => Some(BinOp::Ne),
        '<' => Some(BinOp::Le),
        '>' => Some(BinOp::Ge),
        _ => None,
    }
}

fn doubled(ch: char) -> Option<BinOp>
    ensures { result ≡ spec.doubled ch }
{
    match ch {
        '&' => Some(BinOp::And),
        '|' => Some(BinOp::Or),
        '<' => Some(BinOp::Shl),
        '>' => Some(BinOp::Shr),
        _ => None,
    }
}

/// The operator of two characters.
fn double_of(first: char, second: char) -> Option<BinOp>
    ensures { result ≡ spec.double_of first second }
{
    if second == '=' {
        before_equals(first)
    } else if first == second {
        doubled(first)
    } else {
        None
    }
}

fn single_of(ch: char) -> Option<BinOp>
    ensures { result ≡ spec.single_of ch }
{
    match ch {
        '*' => Some(BinOp::Mul),
        '/' => Some(BinOp::Div),
        '%' => Some(BinOp::Rem),
        '+' => Some(BinOp::Add),
        '-' => Some(BinOp::Sub),
        '&' => Some(BinOp::BitAnd),
        '^' => Some(BinOp::BitXor),
        '|' => Some(BinOp::BitOr),
        '<' => Some(BinOp::Lt),
        '>' => Some(BinOp::Gt),
        _ => None,
    }
}

fn infix_of(width: usize, op: BinOp) -> Infix
    ensures { result ≡ spec.infix_of width op }
{
    let level = level_of(op);
    Infix { op, level, width }
}

/// The operator that comes next. A pair that is an operator is always read as that operator.
#[tactic(auto, unfolding(crate::specs::Look::operator_of))]
pub fn operator_of(trees: &[TokenTree]) -> Option<Infix>
    ensures { result ≡ spec.operator_of trees.now }
{
    let mark = mark_of(trees);
    let pair = if is_joint(trees) {
        double_of(mark, mark_of(after_one(trees)))
    } else {
        None
    };
    if let Some(op) = pair {
        return Some(infix_of(2, op));
    }
    match single_of(mark) {
        Some(op) => Some(infix_of(1, op)),
        None => None,
    }
}

/// The operator that comes next, if it is of this level.
pub fn operator_at(level: u8, trees: &[TokenTree]) -> Option<Infix>
    ensures { result ≡ spec.at_level level (spec.operator_of trees.now) }
{
    match operator_of(trees) {
        Some(found) => {
            if found.level == level {
                Some(found)
            } else {
                None
            }
        }
        None => None,
    }
}
