//! What nested items promise of places and of their printing. The functions do nothing: their clauses
//! are the laws.

ghost use Rattle.law_nested.specs.Erased.{erased_nested, erased_place};
ghost use Rattle.law_nested.specs.StaysBad.{AllStayBad, BeginsNoExpr, IsBad, IsShut};
ghost use Rattle.tok_types.specs.Stream.{stream_of};
ghost use Rattle.law_round_trip.specs.Printed.{separated};
ghost use Rattle.law_spans.specs.Erased.{erased_stream};
ghost use Rattle.meta_nested.specs.Nested.{attribute_in, nested_of};
ghost use Rattle.meta_nested.specs.Nodes.{nested_tokens};
ghost use Rattle.meta_nested.specs.declared.nested.NestedMeta.{NestedMeta};
ghost use Rattle.std.specs.Prelude.{All, List, Some, [], ◌∷◌, map, option_map, ◌≡◌};
ghost use Rattle.syn_core.specs.OneTree.{HaveOneTree};
ghost use Rattle.tok_types.specs.declared.tree.TokenStream.{TokenStream};

/// All of the tokens without their places are read as the same nested items without their places,
/// and as none exactly where the tokens with their places are. An attribute takes the place of a
/// value in one exactly where it does in the other.
pub fn nested_items_see_no_spans()
    ensures nested_of { (tokens : TokenStream) → nested_of (erased_stream tokens) ≡ option_map (map erased_nested) (nested_of tokens) }
    ensures attribute_in { (tokens : TokenStream) → attribute_in (erased_stream tokens) ≡ option_map erased_place (attribute_in tokens) }
{}

/// Nested items that are read of some tokens are read, as the same but for places, of their printing
/// with commas between them, exactly where no bad value among them becomes a value with the comma and
/// the items that are printed behind it. One does in `a = b::<c, d = [x,] > -1`: the value of `a` is
/// bad, since `[x,]` is no type, and `d = [x,] > -1` is an item behind it. It is printed as
/// `d = [x] > -1`, and `b::<c, d = [x] > -1` is one value. Of the last item nothing is asked: so one
/// item alone is read back, whatever it is. Values that are shut stay bad before all items, and what
/// begins no expression is shut, as `pub(crate)`.
pub fn nested_items_are_read_back()
    ensures nested_of { (tokens : TokenStream) (items : List NestedMeta) → nested_of tokens ≡ Some items → AllStayBad items
        → (again : List NestedMeta) × (nested_of (stream_of (separated nested_tokens items)) ≡ Some again) × (map erased_nested again ≡ map erased_nested items) }
    ensures only { (tokens : TokenStream) (items again : List NestedMeta) → nested_of tokens ≡ Some items → nested_of (stream_of (separated nested_tokens items)) ≡ Some again
        → map erased_nested again ≡ map erased_nested items → AllStayBad items }
    ensures one { (tokens : TokenStream) (item : NestedMeta) → nested_of tokens ≡ Some (item ∷ [])
        → (again : NestedMeta) × (nested_of (stream_of (nested_tokens item)) ≡ Some (again ∷ [])) × (erased_nested again ≡ erased_nested item) }
    ensures stay { (items : List NestedMeta) → All IsShut items → AllStayBad items }
    ensures shut { (tokens : TokenStream) → BeginsNoExpr tokens → IsBad tokens }
{}

/// A list of tokens is read as one list of nested items at most.
pub fn nested_items_have_one_tree()
    ensures nested_of { HaveOneTree nested_of }
{}
