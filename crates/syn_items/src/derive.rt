//! Items: structs, enums and unions.

ghost use Rattle.std.specs.Prelude.{◌≡◌, IfOk};
ghost use Rattle.syn_items.specs.Items as spec;
ghost use Rattle.syn_grammar.specs.Reads.{Gives};
ghost use Rattle.syn_items.specs.Lists.{Passes};
ghost use Rattle.syn_items.specs.Trees.{IsItemPrefix};

use crate::attr::attributes;
use crate::clause::maybe_where;
use crate::data::{fields_named, fields_unnamed, variants};
use crate::generics::params;
use crate::lists::{While, each_while};
use crate::look::{ItemStart, item_start};
use crate::restriction::visibility;
use base_core::{Items, Mem};
use node_core::{
    Data, DataEnum, DataStruct, DataUnion, DeriveInput, Fields, Generics, WhereClause,
};
use std::alloc::{AllocError, Global};
use syn_grammar::{Cursor, ReadFail, is_group};
use syn_lists::ReadItem;
use tok_types::{Delimiter, TokenStream};

/// A body, and the `where` clause that stands before or in it.
type Body = (Option<WhereClause>, Data);

/// `(A, B) where ..;`
#[tactic(auto, unfolding(crate::specs::Items::tuple_struct))]
fn tuple_struct(alloc: Global, tokens: &mut Cursor<'_>) -> Result<Body, ReadFail>
    ensures { Gives (spec.tuple_struct tokens.old) result tokens.new }
{
    let start = tokens.here();
    let unnamed = fields_unnamed(alloc, tokens)?;
    let clause = maybe_where(alloc, tokens)?;
    tokens.expect_mark(';')?;
    let span = tokens.upto(start);
    let fields = Fields::Unnamed(unnamed);
    Ok((clause, Data::Struct(DataStruct { fields, span })))
}

/// `{ a: A }`, or `;`
#[tactic(auto, unfolding(crate::specs::Items::other_struct))]
fn other_struct(alloc: Global, tokens: &mut Cursor<'_>) -> Result<Data, ReadFail>
    ensures { Gives (spec.other_struct tokens.old) result tokens.new }
{
    let span = tokens.here();
    if is_group(Delimiter::Brace, tokens.rest()) {
        let named = fields_named(alloc, tokens)?;
        let fields = Fields::Named(named);
        return Ok(Data::Struct(DataStruct { fields, span }));
    }
    tokens.expect_mark(';')?;
    let fields = Fields::Unit;
    Ok(Data::Struct(DataStruct { fields, span }))
}

/// `{ A, B(T) }`
#[tactic(auto, unfolding(crate::specs::Items::enum_body))]
fn enum_body(alloc: Global, tokens: &mut Cursor<'_>) -> Result<Data, ReadFail>
    ensures { Gives (spec.enum_body tokens.old) result tokens.new }
{
    let span = tokens.here();
    if !is_group(Delimiter::Brace, tokens.rest()) {
        return Err(ReadFail::Syntax);
    }
    let mut inner = tokens.contents();
    let variants = variants(alloc, &mut inner)?;
    inner.finish()?;
    tokens.skip();
    Ok(Data::Enum(DataEnum { variants, span }))
}

#[tactic(auto, unfolding(crate::specs::Items::union_body))]
fn union_body(alloc: Global, tokens: &mut Cursor<'_>) -> Result<Data, ReadFail>
    ensures { Gives (spec.union_body tokens.old) result tokens.new }
{
    let span = tokens.here();
    let fields = fields_named(alloc, tokens)?;
    Ok(Data::Union(DataUnion { fields, span }))
}

/// A body that stands behind its clause.
fn data(alloc: Global, tokens: &mut Cursor<'_>, begins: ItemStart) -> Result<Data, ReadFail>
    ensures { Gives (spec.data_by begins tokens.old) result tokens.new }
{
    match begins {
        ItemStart::Struct => other_struct(alloc, tokens),
        ItemStart::Enum => enum_body(alloc, tokens),
        ItemStart::Union => union_body(alloc, tokens),
        ItemStart::Nothing => Err(ReadFail::Syntax),
    }
}

/// Whether a struct with fields in parentheses begins here.
fn is_tuple_struct(tokens: &Cursor<'_>, begins: ItemStart) -> bool
    ensures { result ≡ spec.is_tuple_struct begins tokens.now.rest }
{
    match begins {
        ItemStart::Struct => is_group(Delimiter::Parenthesis, tokens.rest()),
        _ => false,
    }
}

/// The body of an item and its `where` clause.
#[tactic(auto, unfolding(crate::specs::Items::body_of))]
fn body(alloc: Global, tokens: &mut Cursor<'_>, begins: ItemStart) -> Result<Body, ReadFail>
    ensures { Gives (spec.body_of begins tokens.old) result tokens.new }
{
    if is_tuple_struct(tokens, begins) {
        return tuple_struct(alloc, tokens);
    }
    let clause = maybe_where(alloc, tokens)?;
    let data = data(alloc, tokens, begins)?;
    Ok((clause, data))
}

/// `#[attr] pub struct Name<T> where .. { a: T }`
#[tactic(auto, unfolding(crate::specs::Items::item))]
pub fn item(alloc: Global, tokens: &mut Cursor<'_>) -> Result<DeriveInput, ReadFail>
    ensures { Gives (spec.item tokens.old) result tokens.new }
{
    let start = tokens.here();
    let attrs = attributes(alloc, tokens)?;
    let vis = visibility(alloc, tokens)?;
    let begins = item_start(tokens.rest());
    tokens.skip();
    let ident = tokens.take_name(alloc)?;
    let (params, params_span) = params(alloc, tokens)?;
    let (where_clause, body) = body(alloc, tokens, begins)?;
    let span = tokens.upto(start);
    let generics = Generics {
        params,
        where_clause,
        span: params_span,
    };
    let found = DeriveInput {
        attrs,
        vis,
        ident,
        generics,
        body,
        span,
    };
    Ok(found)
}

/// Reads an item.
#[derive(Drop)]
struct DeriveInputReader(Global);

impl ReadItem<DeriveInput> for DeriveInputReader {
    ghost reader = { λ it. spec.item };

    fn read(&mut self, tokens: &mut Cursor<'_>) -> Result<DeriveInput, ReadFail> {
        item(self.0, tokens)
    }
}

/// Items, to the end.
pub fn items(alloc: Global, tokens: &mut Cursor<'_>) -> Result<Items<DeriveInput>, ReadFail>
    ensures { Gives (spec.items tokens.old) result tokens.new }
{
    each_while(alloc, tokens, While::Token, &mut DeriveInputReader(alloc))
}

/// Takes one item and keeps nothing of it.
fn pass_item(alloc: Global, tokens: &mut Cursor<'_>) -> Result<(), ReadFail>
    ensures { Passes (spec.item tokens.old) result tokens.new }
{
    let _found = item(alloc, tokens)?;
    Ok(())
}

/// How many tokens the longest prefix has that is a list of items.
pub fn item_prefix(alloc: Global, tokens: &TokenStream) -> Mem<usize>
    ensures { IfOk result (IsItemPrefix tokens.now) }
{
    let trees = tokens.trees.as_slice();
    let mut left = Cursor::new(trees);
    let mut front = 0;
    for _turn in 0..trees.len() {
        match pass_item(alloc, &mut left) {
            Ok(()) => front = trees.len() - left.left(),
            Err(ReadFail::Syntax) => return Ok(front),
            Err(ReadFail::NoMemory) => return Err(AllocError),
        }
    }
    Ok(front)
}
