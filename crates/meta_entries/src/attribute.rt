//! Kinds of attributes.

ghost use Rattle.std.specs.Prelude.{◌≡◌, IfOk};
ghost use Rattle.error_core.specs.Answers.{Answers};

use base_core::{Items, Mem};
use error_core::Result;
use meta_nested::NestedMeta;
use node_core::Meta;
use node_expr::Path;
use std::alloc::Global;

/// A kind of attributes: which are read, and what the items of one are.
pub trait AttributeKind {
    ghost use Rattle.std.specs.Prelude.{Bool, List};
    ghost use Rattle.error_fault.specs.Outcome.{Outcome};
    ghost use Rattle.meta_nested.specs.declared.nested.NestedMeta.{NestedMeta};
    ghost use Rattle.node_core.specs.declared.attr.Meta.{Meta};
    ghost use Rattle.node_expr.specs.declared.path.Path.{Path};

    /// Whether attributes of a path are read.
    ghost reads: { Self → Path → Bool };

    /// The items of an attribute, or what is wrong with one that has none.
    ghost list: { Self → Meta → Outcome (List NestedMeta) };

    fn is_read(&self, alloc: Global, path: &Path) -> Mem<bool>
        ensures { IfOk result (λ it. it ≡ reads self.now path.now) };

    fn items(&self, alloc: Global, meta: &Meta) -> Result<Items<NestedMeta>>
        ensures { Answers (λ it. it) result (list self.now meta.now) };
}
