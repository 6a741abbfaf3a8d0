//! Laws of a fault's members. These functions do nothing: each contract is a law.

ghost use Rattle.pci_json.specs.FaultLaws.{HasFaultMembers, HasGivenFaultMembers, HasToldFaultMembers, HasEachFault, HasEachToldFault};

/// The members of a fault's object are its number, its name, its line, and what it names, in this order.
pub fn fault_members_are_of_the_fault()
    ensures known { HasFaultMembers }
    ensures given { HasGivenFaultMembers }
    ensures told { HasToldFaultMembers }
{}

/// Of a list of faults the document has one object for each, in their order, with its members.
pub fn documents_have_each_fault()
    ensures given { HasEachFault }
    ensures told { HasEachToldFault }
{}
