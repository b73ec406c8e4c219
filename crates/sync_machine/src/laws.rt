//! Laws of operations: they do nothing, and their clauses are proved.
ghost use Rattle.sync_machine.specs.Tests.{ConditionsAreTests, SafetyIsATest};

/// That all conditions of a list of statements are true is a test.
pub fn conditions_are_tests()
    ensures { ConditionsAreTests }
{}

/// That all safety conditions are true, as far as the conditions before them are, is a test.
pub fn safety_is_a_test()
    ensures { SafetyIsATest }
{}
