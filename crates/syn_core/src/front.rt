//! What stands at the front of tokens, with the limit of depth that every parser keeps.

ghost use Rattle.std.specs.Prelude.{◌≡◌, true};
ghost use Rattle.syn_grammar.specs.Arguments as arguments;
ghost use Rattle.syn_grammar.specs.Grammar.{max_depth, within};
ghost use Rattle.syn_grammar.specs.Input as input;
ghost use Rattle.syn_grammar.specs.Paths as paths;
ghost use Rattle.syn_grammar.specs.Readers.{any_level};
ghost use Rattle.syn_grammar.specs.Reads.{Gives};
ghost use Rattle.syn_grammar.specs.Words.{name_of};

use base_core::Items;
use node_expr::{Expr, FnArg, Path, Type};
use std::alloc::Global;
use syn_grammar::{Cursor, ReadFail};
use syn_lists::{MAX_PATTERN, ReadItem, items_after, pattern};
use syn_rules::{read_expr, read_path, read_type};
use syn_types::{ANY_LEVEL, MAX_DEPTH};
use tok_types::{Ident, TokenStream};

/// A type, where a `dyn` or `impl` has several bounds.
pub(crate) fn ty(alloc: Global, tokens: &mut Cursor<'_>) -> Result<Type, ReadFail>
    ensures { Gives ((within max_depth).ty true tokens.old) result tokens.new }
{
    let (ty, _) = read_type(alloc, tokens, MAX_DEPTH, true)?;
    Ok(ty)
}

/// Any expression.
pub(crate) fn expr(alloc: Global, tokens: &mut Cursor<'_>) -> Result<Expr, ReadFail>
    ensures { Gives ((within max_depth).expr any_level tokens.old) result tokens.new }
{
    let (expr, _) = read_expr(alloc, tokens, MAX_DEPTH, ANY_LEVEL)?;
    Ok(expr)
}

/// A path as in a type.
pub(crate) fn path(alloc: Global, tokens: &mut Cursor<'_>) -> Result<Path, ReadFail>
    ensures { Gives (paths.path (within max_depth) true tokens.old) result tokens.new }
{
    let (path, _) = read_path(alloc, tokens, MAX_DEPTH, true)?;
    Ok(path)
}

/// An identifier.
pub(crate) fn name(alloc: Global, tokens: &mut Cursor<'_>) -> Result<Ident, ReadFail>
    ensures { Gives (input.take_as name_of tokens.old) result tokens.new }
{
    tokens.take_name(alloc)
}

/// One argument of a function: `name: T`, `&(mut a, _): T`
#[tactic(auto, unfolding(syn_grammar::specs::Arguments::fn_arg))]
fn fn_arg(alloc: Global, tokens: &mut Cursor<'_>) -> Result<FnArg, ReadFail>
    ensures { Gives (arguments.fn_arg (within max_depth) tokens.old) result tokens.new }
{
    let before = tokens.rest();
    let start = tokens.here();
    pattern(tokens, MAX_PATTERN)?;
    let trees = tokens.read_since(alloc, before)?;
    tokens.expect_colon()?;
    let ty = ty(alloc, tokens)?;
    let span = tokens.upto(start);
    let pat = TokenStream { trees };
    Ok(FnArg { pat, ty, span })
}

/// Reads an argument of a function.
#[derive(Drop)]
struct FnArgReader(Global);

impl ReadItem<FnArg> for FnArgReader {
    ghost reader = { λ it. arguments.fn_arg (within max_depth) };

    fn read(&mut self, tokens: &mut Cursor<'_>) -> Result<FnArg, ReadFail> {
        fn_arg(self.0, tokens)
    }
}

/// The arguments of a function.
pub(crate) fn fn_args(alloc: Global, tokens: &mut Cursor<'_>) -> Result<Items<FnArg>, ReadFail>
    ensures { Gives (paths.list (arguments.fn_arg (within max_depth)) tokens.old) result tokens.new }
{
    items_after(tokens, &mut FnArgReader(alloc), Items::new(alloc))
}

/// Reads an expression.
#[derive(Drop)]
struct ExprReader(Global);

impl ReadItem<Expr> for ExprReader {
    ghost reader = { λ it. (within max_depth).expr any_level };

    fn read(&mut self, tokens: &mut Cursor<'_>) -> Result<Expr, ReadFail> {
        expr(self.0, tokens)
    }
}

/// A list of expressions.
pub(crate) fn exprs(alloc: Global, tokens: &mut Cursor<'_>) -> Result<Items<Expr>, ReadFail>
    ensures { Gives (paths.list ((within max_depth).expr any_level) tokens.old) result tokens.new }
{
    items_after(tokens, &mut ExprReader(alloc), Items::new(alloc))
}

/// Reads an identifier.
#[derive(Drop)]
struct NameReader(Global);

impl ReadItem<Ident> for NameReader {
    ghost reader = { λ it. input.take_as name_of };

    fn read(&mut self, tokens: &mut Cursor<'_>) -> Result<Ident, ReadFail> {
        name(self.0, tokens)
    }
}

/// A list of identifiers.
pub(crate) fn names(alloc: Global, tokens: &mut Cursor<'_>) -> Result<Items<Ident>, ReadFail>
    ensures { Gives (paths.list (input.take_as name_of) tokens.old) result tokens.new }
{
    items_after(tokens, &mut NameReader(alloc), Items::new(alloc))
}

/// Reads a path as in a type.
#[derive(Drop)]
struct PathReader(Global);

impl ReadItem<Path> for PathReader {
    ghost reader = { λ it. paths.path (within max_depth) true };

    fn read(&mut self, tokens: &mut Cursor<'_>) -> Result<Path, ReadFail> {
        path(self.0, tokens)
    }
}

/// A list of paths.
pub(crate) fn path_list(alloc: Global, tokens: &mut Cursor<'_>) -> Result<Items<Path>, ReadFail>
    ensures { Gives (paths.list (paths.path (within max_depth) true) tokens.old) result tokens.new }
{
    items_after(tokens, &mut PathReader(alloc), Items::new(alloc))
}
