//! The laws. These functions do nothing: their clauses are the laws.

ghost use Rattle.law_given.specs.Claims.{AcceptedIsGiven, CompiledIsGiven, FitCanRun, GivenHasOutcome, GivenIsOfDeclarations};

/// A unit of a program that options give has an outcome on each element of its kind, under any host: `execute` may be called.
pub fn a_given_unit_has_an_outcome()
    ensures { GivenHasOutcome }
{}

/// Where `fit` answers `Ok` of such a program, it has a receiver, which has an outcome on any item: `run_program` may be
/// called.
pub fn a_fit_program_can_be_run()
    ensures { FitCanRun }
{}

/// What `compile` answers is such a program, where no declaration has more fields than a `u32` counts, and no function that
/// it names begins with the name by which generated code calls `darling`.
pub fn what_is_compiled_is_given()
    ensures { CompiledIsGiven }
{}

/// What `program_of` answers is such a program, where no declaration has more fields than a `u32` counts.
pub fn what_is_accepted_is_given()
    ensures { AcceptedIsGiven }
{}

/// A unit of such a program is one that options without a fault leave. It has the identifier, the parameters and, in order,
/// the fields of its declaration, of which each has a slot.
pub fn a_given_unit_is_of_its_declaration()
    ensures { GivenIsOfDeclarations }
{}
