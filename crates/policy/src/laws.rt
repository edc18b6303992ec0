//! Theorems about the definition of a policy's text, as the contracts of functions with empty
//! bodies.
ghost use Rattle.policy.specs.FirstFault.{NumbersTheFirstFault, NumbersTheFirstGroup};

/// If a fault has a rule's number, all groups and all rules before that rule are read, and the
/// rule that has the number has the fault.
pub fn numbers_the_first_fault()
    ensures { NumbersTheFirstFault }
{}

/// If a fault has a group's number, all groups before that group are read, and the group that
/// has the number has the fault.
pub fn numbers_the_first_group()
    ensures { NumbersTheFirstGroup }
{}
