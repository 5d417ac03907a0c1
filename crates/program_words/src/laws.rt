// The laws of words, each the contract of a function that does nothing.
ghost use Rattle.program_words.specs.Laws.{AskedForIsSaid, HelpAsksForNothing, ModeIsUnique};
ghost use Rattle.program_words.specs.Laws.{NoneAskForNothing, SaidIsAskedFor};

/// Words ask for one mode at most.
pub fn mode_is_unique()
    ensures { ModeIsUnique }
{}

/// Words of which none begins with a hyphen ask for what they say, and for nothing else.
pub fn plain_words_ask_for_what_they_say()
    ensures said { SaidIsAskedFor }
    ensures only { AskedForIsSaid }
{}

/// No words ask for nothing, and so does `--help`.
pub fn others_ask_for_nothing()
    ensures none { NoneAskForNothing }
    ensures help { HelpAsksForNothing }
{}
