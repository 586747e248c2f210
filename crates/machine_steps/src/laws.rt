//! Laws of the machine.

ghost use Rattle.machine_steps.specs.Statements.{RunInOrder};

/// Statements that stand behind others go on from where those came to.
pub fn statements_run_in_order()
    ensures { RunInOrder }
{}
