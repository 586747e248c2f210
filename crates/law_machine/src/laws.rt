//! The laws. These functions do nothing: their clauses are the laws.

ghost use Rattle.law_machine.specs.Claims.{CellsAreMeant, ElementIsMeant, ElementsAreMeant, InputIsMeaning};
ghost use Rattle.law_machine.specs.Claims.{InputsHaveOutcomes, ListIsMeaning};
ghost use Rattle.law_machine.specs.Claims.{MetaFuncsHaveOutcomes, ProgramIsMeaning, UnitsCanBeRun};

/// `from_list` of a struct gives what the items mean under the declaration, for every host and whatever the
/// declarations before it read; it never looks for a value that is not there.
pub fn a_list_is_read_as_meant()
    ensures { ListIsMeaning }
{}

/// `from_derive_input` of a struct with braces gives what the attributes of an item mean under the declaration.
pub fn an_input_is_read_as_meant()
    ensures { InputIsMeaning }
{}

/// The function by which a struct reads an element field by field gives what the element means under the declaration: of
/// its attributes, and of the parts that fields take.
pub fn an_element_is_read_as_meant()
    ensures { ElementIsMeant }
{}

/// What a unit of `FromMeta` reads of a word, a list, a string, an expression, a whole meta and of no item is what the
/// declaration means: a struct of any form or an enum, and the callables in the place of these.
pub fn a_unit_reads_what_is_meant()
    ensures { CellsAreMeant }
{}

/// The unit of a program that reads items of a text gives, on any of them, what it means under the declaration, which has
/// braces and whose fields may have the types of declarations below it.
pub fn a_program_reads_what_is_meant()
    ensures { ProgramIsMeaning }
{}

/// The unit of a program that reads items of a text gives, on any of them, what it means under a declaration whose fields
/// take neither the body nor the generics.
pub fn a_program_reads_elements_as_meant()
    ensures { ElementsAreMeant }
{}

/// Each function of a unit of `FromMeta` that options leave has an outcome on whatever it is asked, and whatever the
/// declarations before it read.
pub fn a_function_has_an_outcome()
    ensures { MetaFuncsHaveOutcomes }
{}

/// So has `from_derive_input` on any item of a text.
pub fn an_input_has_an_outcome()
    ensures { InputsHaveOutcomes }
{}

/// A unit that options leave has an outcome on each element of its kind, under any host: `execute` may be called.
pub fn a_unit_can_be_run()
    ensures { UnitsCanBeRun }
{}
