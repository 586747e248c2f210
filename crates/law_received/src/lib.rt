//! Laws of receivers that are written by hand: where their fields are those of a declaration, items and attributes mean the same to
//! both. The functions do nothing: their clauses are the laws.
#![tactic(auto)]

ghost use Rattle.law_received.specs.Claims.{SameFaults, SameMeaning};
ghost use Rattle.law_received.specs.Fields.{MultipleIsField, OptionalIsField, SingleIsField};

use meta_core::FromMeta;
use receive_core::Receiver;

/// A field of a receiver is a field of a declaration, where both find the same wrong with each item.
pub fn a_field_that_reads_alike_is_declared<T: FromMeta>()
    ensures single { SingleIsField T.cells }
    ensures optional { OptionalIsField T.cells }
    ensures multiple { MultipleIsField T.cells }
{}

/// A receiver and a declaration of the same fields find the same wrong with any entries of attributes, in the same order. Where the
/// values agree of items with which nothing is wrong, any entries mean the same to both, and so any items.
#[tactic(auto, using(crate::proofs::Received::same_faults, crate::proofs::Received::same_meaning))]
pub fn a_receiver_means_its_declaration<T: Receiver>()
    ensures faults { SameFaults T.schema }
    ensures meaning { SameMeaning T.schema }
{}
