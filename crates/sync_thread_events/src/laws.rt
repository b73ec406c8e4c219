//! That a shared step with its values is the step of the code; and when the final block waits.

ghost use Rattle.sync_thread_events.specs.Calls.{FinalBlockWaitsLast};
ghost use Rattle.sync_thread_events.specs.Laws.{StepsAreCodeSteps};

/// A step of code on words, cells, lines and the thread's locals is what it asks for, done, and what it finds, kept.
pub fn steps_are_code_steps()
    ensures { StepsAreCodeSteps }
{}

/// In every schedule the final block waits only where all threads have ended.
pub fn final_block_waits_last()
    ensures { FinalBlockWaitsLast }
{}
