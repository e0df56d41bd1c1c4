//! Laws of removals: a unit that was assigned an ONU-ID has it, or a message that takes it away was sent or is owed
//! after that.
ghost use Rattle.gp_laws.specs.Removals.{EachStepAdds, AssignedStayOrAreTold};

/// States that a step puts all copies of the messages that it owes behind what is owed, tells units the
/// ONU-IDs that they have, and takes an ONU-ID from a unit only with a message that says so.
pub fn each_step_adds_messages()
    ensures { EachStepAdds }
{}

/// States that a unit that was assigned an ONU-ID has it by the unit table, or that Deactivate_ONU-ID or
/// Disable_Serial_Number was sent or is owed after the Assign_ONU-ID.
pub fn assigned_stay_or_are_told()
    ensures { AssignedStayOrAreTold }
{}
