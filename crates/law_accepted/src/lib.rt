//! Laws of what declarations mean. Accepted plain ones can be run, and a value of what an item means fits the last of them,
//! as does each value of a report; an item that no field takes is one more fault.
#![tactic(auto)]

ghost use Rattle.law_accepted.specs.Claims.{AcceptedFits, AcceptedIsSound, ReportFits};
ghost use Rattle.law_accepted.specs.MoreFaults.{OneMoreFault};

/// What is accepted of plain declarations can be run, as options leave it.
pub fn what_is_accepted_can_be_run()
    ensures { AcceptedIsSound }
{}

/// A value of what an item means under plain declarations fits the receiver, by the laws of the host.
pub fn a_meant_value_fits_the_receiver()
    ensures { AcceptedFits }
{}

/// Each value of a report of plain declarations fits the receiver, by the laws of the host.
pub fn the_values_of_a_report_fit_the_receiver()
    ensures { ReportFits }
{}

/// One more item that no field takes is one more fault, at its place, where a declaration refuses such items.
pub fn an_unknown_item_is_one_more_fault()
    ensures { OneMoreFault }
{}
