//! What holds of every run of a script, as contracts of calls that do nothing. What they speak of
//! is defined in specs/Run.antt and specs/Laws.antt.

ghost use Rattle.std.specs.Prelude.{ℕ, List, ◌++◌};
ghost use Rattle.hv_play.specs.declared.entry.Entry.{Entry};
ghost use Rattle.hv_play.specs.Run.{Setting};
ghost use Rattle.hv_play.specs.Laws.{AreSeenTalksRight, AreTalksSeen, HasEachLastWord, HasOneLastWord, HasRightTalks, LeadsTalks, LeavesNothingOpen, ShowsLines};

/// An output may be cut after any of its lines: the lines up to there are those of a run too.
pub fn outputs_can_be_cut()
    ensures cut { (g : Setting) (script : List ℕ) (front rest : List Entry)
        → ShowsLines g script (front ++ rest) → ShowsLines g script front }
{}

/// Each session's talk is right: what it heard and what it said lead it from what it was to what it is.
pub fn talks_are_right()
    ensures led { LeadsTalks }
    ensures right { HasRightTalks }
{}

/// What each session heard and said is what script and output lines show, and as such its talk is right.
pub fn talks_are_seen()
    ensures shown { AreTalksSeen }
    ensures right { AreSeenTalksRight }
{}

/// A whole output leaves no request open.
pub fn nothing_is_left_open()
    ensures { LeavesNothingOpen }
{}

/// Each request that was opened has exactly one last word: its value, that it was cancelled, or that memory was refused.
pub fn requests_have_one_last_word()
    ensures one { HasOneLastWord }
    ensures each { HasEachLastWord }
{}
