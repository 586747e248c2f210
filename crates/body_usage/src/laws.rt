//! What the search for parameters promises. This function does nothing: its clauses are the laws.

ghost use Rattle.std.specs.Prelude.{◌≡◌, List, true};
ghost use Rattle.tok_types.specs.declared.ident.Ident.{Ident};
ghost use Rattle.tok_types.specs.declared.ident.Lifetime.{Lifetime};
ghost use Rattle.body_usage.specs.declared.options.Purpose.TheVariants.{BoundImpl, Declare};
ghost use Rattle.body_usage.specs.Mentions.{Mention};
ghost use Rattle.body_usage.specs.Occurs.{lifetime_occurs, type_param_occurs};

/// What occurs in a node for `BoundImpl` occurs there for `Declare`, whatever the node mentions.
pub fn bound_impl_is_within_declare()
    ensures type_params { (mentions : List Mention) (name : Ident) → type_param_occurs BoundImpl mentions name ≡ true → type_param_occurs Declare mentions name ≡ true }
    ensures lifetimes { (mentions : List Mention) (name : Lifetime) → lifetime_occurs BoundImpl mentions name ≡ true → lifetime_occurs Declare mentions name ≡ true }
{}
