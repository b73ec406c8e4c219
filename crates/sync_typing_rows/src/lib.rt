//! Rows of typing that are sound, and what the others have meanwhile.
#![tactic(auto)]

ghost use Rattle.sync_typing_rows.specs.BeginLaws.{BeginningsStand};
ghost use Rattle.sync_typing_rows.specs.EndLaws.{EndsGoOn};
ghost use Rattle.sync_typing_rows.specs.GatherLaws.{GathersGoOn};
ghost use Rattle.sync_typing_rows.specs.KeepLaws.{KeepRowsGoOn};
ghost use Rattle.sync_typing_rows.specs.OthersLaws.{OthersAreLeft};
ghost use Rattle.sync_typing_rows.specs.RestLaws.{TypedTextsRest};
ghost use Rattle.sync_typing_rows.specs.SoundLaws.{RestsAreGood, TypedTextsAreSound};
ghost use Rattle.sync_typing_rows.specs.SplitLaws.{SplitRowsGoOn};

use sync_typing_laws::Meant;

/// Rows on keeps are sound: jumps to a keep, and the first coming to a loop's.
pub fn keep_rows_go_on<T: Meant>()
    ensures { KeepRowsGoOn T.meanings }
{}

/// What one thread does leaves to the others what they have.
pub fn others_are_left()
    ensures { OthersAreLeft }
{}

/// The rows of `split` and `merge` are sound.
pub fn split_rows_go_on<T: Meant>()
    ensures { SplitRowsGoOn T.meanings }
{}

/// A list begins where its thread has what its keeps say.
pub fn beginnings_stand()
    ensures { BeginningsStand }
{}

/// A thread that may come to its `end` ends, and has what its last keep says.
pub fn ends_go_on<T: Meant>()
    ensures { EndsGoOn T.meanings }
{}

/// Where all threads have ended the final block takes over, and has what their last keeps say.
pub fn gathers_go_on()
    ensures { GathersGoOn }
{}

/// A typed program rests at each moment of each schedule, where its rows of exchanges and of words are sound and its
/// start leaves what its threads begin with.
pub fn typed_texts_rest<T: Meant>()
    ensures { TypedTextsRest T.meanings }
{}

/// A typed program at rest is good: nobody races either.
pub fn rests_are_good()
    ensures { RestsAreGood }
{}

/// A typed text is sound, where its rows of exchanges and of words are, what it peeks at is stored, and its start leaves
/// what its threads begin with.
pub fn typed_texts_are_sound()
    ensures { TypedTextsAreSound }
{}
