//! The law that the formulas on maps are true.
ghost use Rattle.sync_kernel_facts.specs.Laws.{AreTrue};

/// The formulas that `cong_fact`, `read_fact`, `size_fact` and `total_fact` build are true under every valuation.
pub fn facts_are_true()
    ensures { AreTrue }
{}
