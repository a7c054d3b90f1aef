//! What holds of several brokers. The function does nothing: its contract is a law.
ghost use Rattle.family.specs.Families.{FamiliesKeepGuarantees};

/// Of several brokers, each under a lawful price of its own, each alone keeps the three guarantees, whatever is called.
pub fn each_of_several_brokers_keeps_the_guarantees()
    ensures { FamiliesKeepGuarantees }
{}
