//! What bodies mention whose members are of any type.

use crate::list::push_all;
use crate::mentions::Mentions;
use crate::searched::Searched;
use base_core::Mem;
use body_core::ast;

impl<T: Searched> Searched for ast::Fields<T> {
    ghost use Rattle.body_usage.specs.Ast.{members_mention};

    ghost mentions = { members_mention T.mentions };

    fn push_mentions<'n>(&'n self, in_qself: bool, found: &mut Mentions<'n>) -> Mem<()> {
        push_all(self.fields.as_slice(), in_qself, found)
    }
}

impl<V: Searched, F: Searched> Searched for ast::Data<V, F> {
    ghost use Rattle.body_usage.specs.Ast.{body_mentions};

    ghost mentions = { body_mentions V.mentions F.mentions };

    fn push_mentions<'n>(&'n self, in_qself: bool, found: &mut Mentions<'n>) -> Mem<()> {
        match self {
            ast::Data::Enum(variants) => push_all(variants.as_slice(), in_qself, found),
            ast::Data::Struct(fields) => fields.push_mentions(in_qself, found),
        }
    }
}
