//! The laws of rest, from facts on single statements to every event of every schedule; and laws of steps and logs.

ghost use Rattle.sync_thread.specs.Alone.{StepsAreAlone};
ghost use Rattle.sync_thread.specs.Control.{Language, ProgramMeaning};
ghost use Rattle.sync_thread.specs.Logs.{LogsAreCut};
ghost use Rattle.sync_thread.specs.Resting.{EventsRest, Rules, SchedulesGoOn, SchedulesRest};
ghost use Rattle.sync_thread.specs.Tables.{StepsTell};

/// A language of statements, typing rules for it, and what a program does in it.
pub trait Ruled {
    ghost language: { Language };

    ghost rules: { Rules language };

    ghost meaning: { ProgramMeaning language };
}

/// Where the rules tell of each single statement what it does, an event leaves a program at rest.
pub fn events_rest<T: Ruled>()
    ensures { EventsRest T.language T.rules T.meaning }
{}

/// So does every schedule, from a state in which the threads may begin.
pub fn schedules_rest<T: Ruled>()
    ensures { SchedulesRest T.language T.rules T.meaning }
{}

/// And where no failure is spared, every schedule goes on.
pub fn schedules_go_on<T: Ruled>()
    ensures { SchedulesGoOn T.language T.rules T.meaning }
{}

/// A part of a log from its beginning is what the thread does too.
pub fn logs_are_cut()
    ensures { LogsAreCut }
{}

/// What a thread of code does depends on its locals and on what its step finds, and on nothing else in the memory.
pub fn steps_are_alone()
    ensures { StepsAreAlone }
{}

/// What a step does to words and cells is what its entry does to the table that they stand in.
pub fn steps_tell()
    ensures { StepsTell }
{}
