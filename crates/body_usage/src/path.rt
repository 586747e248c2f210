//! What paths and their arguments mention.

ghost use Rattle.std.specs.Prelude.{◌≡◌, ◌++◌, [], if◌then◌else◌, map, OnOk};
ghost use Rattle.body_usage.specs.Mentions.{all_of};
ghost use Rattle.body_usage.specs.Rules.{arguments_of, first_ident};
ghost use Rattle.body_usage.specs.Nodes.{argument_mentions, arguments_mention, path_mentions, segment_of};
ghost use Rattle.body_usage.specs.Kinds.{qself_mentions, segment_mentions};

use crate::bound::push_bounds;
use crate::mentions::Mentions;
use crate::searched::Searched;
use crate::ty::{push_output, push_types};
use base_core::Mem;
use node_expr::{GenericArgument, Path, PathArguments, PathSegment, QSelf};

impl Searched for Path {
    ghost mentions = { path_mentions };

    #[cycle(search)]
    fn push_mentions<'n>(&'n self, in_qself: bool, found: &mut Mentions<'n>) -> Mem<()> {
        let segments = self.segments.as_slice();
        push_first_ident(self.leading_colon, segments, in_qself, found)?;
        push_arguments_of(segments, in_qself, found)
    }
}

impl Searched for PathSegment {
    ghost mentions = { segment_mentions };

    fn push_mentions<'n>(&'n self, in_qself: bool, found: &mut Mentions<'n>) -> Mem<()> {
        self.arguments.push_mentions(in_qself, found)
    }
}

impl Searched for PathArguments {
    ghost mentions = { arguments_mention };

    #[cycle(search)]
    fn push_mentions<'n>(&'n self, in_qself: bool, found: &mut Mentions<'n>) -> Mem<()> {
        match self {
            PathArguments::None => Ok(()),
            PathArguments::AngleBracketed(arguments) => {
                push_arguments(arguments.as_slice(), in_qself, found)
            }
            PathArguments::Parenthesized { inputs, output, .. } => {
                push_types(inputs.as_slice(), in_qself, found)?;
                push_output(output, in_qself, found)
            }
        }
    }
}

impl Searched for GenericArgument {
    ghost mentions = { argument_mentions };

    #[cycle(search)]
    fn push_mentions<'n>(&'n self, in_qself: bool, found: &mut Mentions<'n>) -> Mem<()> {
        match self {
            GenericArgument::Lifetime(it) => found.push_lifetime(it, in_qself),
            GenericArgument::Ty(ty) => ty.push_mentions(in_qself, found),
            GenericArgument::AssocType { ty, .. } => ty.push_mentions(in_qself, found),
            GenericArgument::Constraint { bounds, .. } => {
                push_bounds(bounds.as_slice(), in_qself, found)
            }
            GenericArgument::Const(_) | GenericArgument::AssocConst { .. } => Ok(()),
        }
    }
}

impl Searched for QSelf {
    ghost mentions = { qself_mentions };

    fn push_mentions<'n>(&'n self, in_qself: bool, found: &mut Mentions<'n>) -> Mem<()> {
        self.ty.get().push_mentions(in_qself, found)
    }
}

/// Adds the name of the first segment, where no `::` stands in front.
fn push_first_ident<'n>(
    leading_colon: bool,
    segments: &'n [PathSegment],
    in_qself: bool,
    found: &mut Mentions<'n>,
) -> Mem<()>
    ensures { OnOk result (found.new ≡ found.old ++ (if leading_colon then [] else first_ident (map segment_of segments.now) in_qself)) }
{
    if leading_colon {
        return Ok(());
    }
    match segments.split_first() {
        None => Ok(()),
        Some((first, _)) => found.push_type_param(&first.ident, in_qself),
    }
}

#[cycle(search)]
fn push_arguments_of<'n>(
    segments: &'n [PathSegment],
    in_qself: bool,
    found: &mut Mentions<'n>,
) -> Mem<()>
    ensures { OnOk result (found.new ≡ found.old ++ all_of (map arguments_of (map segment_of segments.now)) in_qself) }
{
    for segment in segments {
        segment.arguments.push_mentions(in_qself, found)?;
    }
    Ok(())
}

#[cycle(search)]
fn push_arguments<'n>(
    arguments: &'n [GenericArgument],
    in_qself: bool,
    found: &mut Mentions<'n>,
) -> Mem<()>
    ensures { OnOk result (found.new ≡ found.old ++ all_of (map argument_mentions arguments.now) in_qself) }
{
    for argument in arguments {
        argument.push_mentions(in_qself, found)?;
    }
    Ok(())
}
