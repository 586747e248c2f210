//! What maps and sets refuse of a list, by filters, and the order of a sorted map's keys. The functions do nothing:
//! their clauses are the laws.
#![tactic(auto)]

ghost use Rattle.std.specs.Prelude.{◌≡◌, Bool, List, []};
ghost use Rattle.std.specs.Cmp.{IsTotalOrder};
ghost use Rattle.std.specs.List.Sorted.{IsStrictlySortedBy};
ghost use Rattle.std.specs.Map.{keys_of};
ghost use Rattle.std.specs.declared.cmp.Ordering.{Ordering};
ghost use Rattle.base_core.specs.declared.text.Text.{Text};
ghost use Rattle.error_fault.specs.Outcome.{Outcome};
ghost use Rattle.law_maps.specs.Filters.{map_faults_by, set_faults_by};
ghost use Rattle.meta_core.specs.Maps.{map_faults, sorted};
ghost use Rattle.meta_core.specs.Sets.{set_faults};
ghost use Rattle.meta_nested.specs.Cells.{Cells};
ghost use Rattle.meta_nested.specs.declared.nested.NestedMeta.{NestedMeta};
ghost use Rattle.node_expr.specs.declared.path.Path.{Path};
ghost use Rattle.tok_types.specs.declared.span.Span.{Span};

/// The faults of a map are those of its items in order, and those of a set alike: a key is a duplicate where one of the items before
/// has the same, also where that one's value fails.
pub fn a_key_is_a_duplicate_where_an_item_before_has_it<K, A>()
    ensures map { (same : K → K → Bool) (text : K → Text) (key_of : Path → Outcome K) (cells : Cells A) (items : List NestedMeta)
        → map_faults same text key_of cells [] items ≡ map_faults_by same text key_of cells items }
    ensures set { (same : K → K → Bool) (text : K → Text) (span_of : K → Span) (read : NestedMeta → Outcome K) (items : List NestedMeta)
        → set_faults same text span_of read [] items ≡ set_faults_by same text span_of read items }
{}

/// The keys of a sorted map rise strictly, whatever the entries, by each lawful order.
pub fn the_keys_of_a_sorted_map_rise<K, A>()
    ensures { (order : K → K → Ordering) (entries : List (K × A)) → IsTotalOrder order → IsStrictlySortedBy order (keys_of (sorted order entries)) }
{}
