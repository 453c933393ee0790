ghost use Rattle.hd_deck.specs.Canonical.{SpellingReadsBack};
ghost use Rattle.hd_deck.specs.Spelling.{StepsAreSpelled};

/// A deck is read just where its lines are spelled as these steps, and as these steps.
pub fn law_steps_are_spelled()
    ensures { StepsAreSpelled }
{}

/// All steps whose arguments find room in lines can be spelled: a deck that spells them is read as these steps.
pub fn law_spelling_reads_back()
    ensures { SpellingReadsBack }
{}
