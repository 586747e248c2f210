//! The laws. These functions do nothing: their clauses are the laws.

ghost use Rattle.law_options.specs.Claims.{InputOptionsAreMeant, MetaOptionsAreMeant, ProgramIsMeant, ProgramIsOne};

/// What is compiled from the options of a receiver that derives `FromDeriveInput` is of the declaration of elements that they
/// mean, where they have no faults, each form can be run, and no two fields take one part.
pub fn input_options_are_meant()
    ensures { InputOptionsAreMeant }
{}

/// The same of one that derives `FromMeta`, where its options have no faults and each of its forms has a program.
pub fn meta_options_are_meant()
    ensures { MetaOptionsAreMeant }
{}

/// The program that a text compiles to, run on any item, gives what the item means under the declarations of the text.
pub fn a_program_is_meant()
    ensures { ProgramIsMeant }
{}

/// The declarations of a text compile to one program at most.
pub fn a_text_has_one_program()
    ensures { ProgramIsOne }
{}
