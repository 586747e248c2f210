//! Whether a declaration has a default.
//!
//! No memory can be asked for here, and a declaration may be reached in many ways, in a chain of structs with
//! two fields of the one before in as many as there are numbers. So the declarations that are reached are marked,
//! in bits on the stack, and looked at once each, from the last to the first: fields are of declarations before
//! their own. The bits are enough for more declarations than an input can have. Behind that many the first of the
//! declarations are asked one by one.

ghost use Rattle.std.specs.Prelude.{◌≡◌, ◌≤◌, ◌<◌, ◌+◌, ◌-◌, ◌/◌, ◌&&◌, ℕ, Option, false, length, is_some};
ghost use Rattle.std.specs.List.{list_all};
ghost use Rattle.machine_host.specs.Decls.{decl_names};
ghost use Rattle.machine_cells.specs.Defaults.{leaf_default, row_default};
ghost use Rattle.machine_rows.specs.Rows.{row_at};
ghost use Rattle.machine_value.specs.declared.value.Value.{Value};
ghost use Rattle.machine_std.specs.Defaults as spec;
ghost use Rattle.machine_std.specs.Marks.{is_marked as is_marked_in, left};
ghost use Rattle.node_expr.specs.declared.ty.«Type».{«Type» as TypeSeen};
ghost use Rattle.machine_rows.specs.Heads.{seen_head};
ghost use Rattle.machine_std.specs.Defaults.{none_of_host};
ghost use Rattle.machine_std.specs.Rests.{head_default, rests_on as rests};

use crate::make_default::{MAX_LEVEL, declaration, named_in};
use crate::marks::{is_marked, mark};
use codegen_program::Decls;
use machine_rows::{Head, Leaf, Wrapper, head_of};
use node_core::{DeriveInput, Field};
use node_expr::Type;

/// The words of a short list of marks, which is cheap to make. A word marks 32 declarations.
const FEW: usize = 32;

/// The words of a long one: as many as an input has declarations at most.
const MANY: usize = 65_536;

/// What the default of a type rests on.
#[derive(Clone, Copy)]
pub enum Rest {
    /// The type has a default.
    Has,
    /// It has none.
    Lacks,
    /// It has one where the declaration of this number has.
    On(usize),
}

/// Whether the declaration of the number has a default.
#[cycle(has_default)]
pub fn has_default(decls: &Decls, number: usize) -> bool
    ensures { result ≡ is_some (spec.default_among decls.now number) }
{
    if number < 32 * FEW {
        has_among_few(decls, number)
    } else {
        has_among_many(decls, number)
    }
}

#[cycle(has_default)]
fn has_among_few(decls: &Decls, number: usize) -> bool
    requires { number < 1024 }
    ensures { result ≡ is_some (spec.default_among decls.now number) }
{
    let mut words = few_unmarked();
    sweep(decls, 0, number, &mut words)
}

#[cycle(has_default)]
fn has_among_many(decls: &Decls, number: usize) -> bool
    ensures { result ≡ is_some (spec.default_among decls.now number) }
{
    let mut words = many_unmarked();
    let base = number.saturating_sub(32 * MANY - 1);
    sweep(decls, base, number, &mut words)
}

fn few_unmarked() -> [u32; FEW]
    ensures { (other : ℕ) → is_marked_in result other ≡ false }
{
    [0; FEW]
}

fn many_unmarked() -> [u32; MANY]
    ensures { (other : ℕ) → is_marked_in result other ≡ false }
{
    [0; MANY]
}

/// Looks at the declarations from the number down to the base that the default of the number's rests on.
#[cycle(has_default)]
fn sweep(decls: &Decls, base: usize, number: usize, words: &mut [u32]) -> bool
    requires within { base ≤ number }
    requires room { (number - base) / 32 < length words.old }
    requires unmarked { (other : ℕ) → is_marked_in words.old other ≡ false }
    ensures { result ≡ is_some (spec.default_among decls.now number) }
{
    mark(words, number - base);
    let mut at = number;
    'down: loop {
        if !look_at(decls, base, at, words) {
            return false;
        }
        if at == base {
            return true;
        }
        at -= 1;
    }
}

/// Looks at the declaration, where it is marked. `false` where it is and has no default.
#[cycle(has_default)]
fn look_at(decls: &Decls, base: usize, number: usize, words: &mut [u32]) -> bool
    requires within { base ≤ number }
    requires room { (number - base) / 32 < length words.old }
    ensures { (result && left decls.now base words.new (number - base)) ≡ left decls.now base words.old (number - base + 1) }
{
    if !is_marked(words, number - base) {
        return true;
    }
    declaration_rests(decls, base, number, words)
}

/// Marks what the default of the declaration rests on. `false` where it has none.
#[cycle(has_default)]
fn declaration_rests(decls: &Decls, base: usize, number: usize, words: &mut [u32]) -> bool
    requires within { base ≤ number }
    requires room { (number - base) / 32 < length words.old }
    ensures { (result && left decls.now base words.new (number - base))
        ≡ (is_some (spec.default_among decls.now number) && left decls.now base words.old (number - base)) }
{
    match declaration(decls, number) {
        Some(decl) => decl_rests(decls, base, number, words, decl),
        None => false,
    }
}

#[cycle(has_default)]
fn decl_rests(
    decls: &Decls,
    base: usize,
    below: usize,
    words: &mut [u32],
    decl: &DeriveInput,
) -> bool
    requires within { base ≤ below }
    requires room { (below - base) / 32 < length words.old }
    ensures { (result && left decls.now base words.new (below - base))
        ≡ (is_some (spec.decl_default (spec.type_default decls.now (spec.default_below decls.now below)) (Some decl.now))
        && left decls.now base words.old (below - base)) }
{
    match named_in(decl) {
        Some(fields) => fields_rest(decls, base, below, words, fields),
        None => false,
    }
}

#[cycle(has_default)]
fn fields_rest(
    decls: &Decls,
    base: usize,
    below: usize,
    words: &mut [u32],
    fields: &[Field],
) -> bool
    requires within { base ≤ below }
    requires room { (below - base) / 32 < length words.old }
    ensures { (result && left decls.now base words.new (below - base))
        ≡ (list_all (λ field. is_some (spec.type_default decls.now (spec.default_below decls.now below) field.ty)) fields.now
        && left decls.now base words.old (below - base)) }
{
    for field in fields {
        if !type_rests(decls, base, below, words, &field.ty) {
            return false;
        }
    }
    true
}

#[cycle(has_default)]
fn type_rests(decls: &Decls, base: usize, below: usize, words: &mut [u32], ty: &Type) -> bool
    requires within { base ≤ below }
    requires room { (below - base) / 32 < length words.old }
    ensures { (result && left decls.now base words.new (below - base))
        ≡ (is_some (spec.type_default decls.now (spec.default_below decls.now below) ty.now) && left decls.now base words.old (below - base)) }
{
    match rest_of(decls, MAX_LEVEL, ty) {
        Rest::Has => true,
        Rest::Lacks => false,
        Rest::On(number) => number_rests(decls, base, below, words, number),
    }
}

#[cycle(has_default)]
fn number_rests(decls: &Decls, base: usize, below: usize, words: &mut [u32], number: usize) -> bool
    requires within { base ≤ below }
    requires room { (below - base) / 32 < length words.old }
    ensures { (result && left decls.now base words.new (below - base))
        ≡ (is_some (spec.default_below decls.now below number) && left decls.now base words.old (below - base)) }
{
    if number >= below {
        return false;
    }
    if number < base {
        return has_default(decls, number);
    }
    mark(words, number - base);
    true
}

/// What the default of a type rests on, where the type is looked into as deep as the level.
#[cycle(rest_of)]
pub(crate) fn rest_of(decls: &Decls, level: usize, ty: &Type) -> Rest
    ensures { (declared : ℕ → Option Value) → is_some (row_default declared none_of_host (row_at (decl_names decls.now) level ty.now)) ≡ rests declared result }
{
    if level == 0 {
        return Rest::Lacks;
    }
    rest_of_head(decls, level - 1, head_of(decls, ty))
}

#[cycle(rest_of)]
fn rest_of_head(decls: &Decls, level: usize, head: Head<&Type>) -> Rest
    ensures { (declared : ℕ → Option Value) (ty : TypeSeen) → is_some (head_default declared (λ inner. row_default declared none_of_host (row_at (decl_names decls.now) level inner)) ty (seen_head head.entry)) ≡ rests declared result }
{
    match head {
        Head::Unit => Rest::Has,
        Head::Leaf(leaf) => rest_of_leaf(leaf),
        Head::Around(Wrapper::Box | Wrapper::SpannedValue, inner) => rest_of(decls, level, inner),
        Head::Around(Wrapper::Result | Wrapper::ResultMeta | Wrapper::WithOriginal, _) => {
            Rest::Lacks
        }
        Head::Around(_, _) => Rest::Has,
        Head::Declared(number) => Rest::On(number),
        Head::Host => Rest::Lacks,
    }
}

fn rest_of_leaf(leaf: Leaf) -> Rest
    ensures { (declared : ℕ → Option Value) → is_some (leaf_default leaf) ≡ rests declared result }
{
    match leaf {
        Leaf::Bool
        | Leaf::Char
        | Leaf::String
        | Leaf::PathBuf
        | Leaf::Integer(_)
        | Leaf::Flag
        | Leaf::Vec(_)
        | Leaf::HashSet(_)
        | Leaf::PathList
        | Leaf::Punctuated(_)
        | Leaf::Ignored => Rest::Has,
        _ => Rest::Lacks,
    }
}
