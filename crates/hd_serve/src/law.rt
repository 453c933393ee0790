ghost use Rattle.hd_serve.specs.Laws.{ToldAnswersAreToldApart, ForetoldIsToldApart, RequestsAreReadBack, FramesAreToldApart, FramesSpellOneRequest, AnswersAreToldApart, DoneIsToldApart};

/// Reading and writing a request are inverse: what is read from a body is a right request, and the body is spelled as it is; and each right
/// request is read from its own spelling.
pub fn law_requests_are_read_back()
    ensures { RequestsAreReadBack }
{}

/// Nothing is wrong with an input just where there is no byte, or the frame of a right request is in front of it.
pub fn law_frames_are_told_apart()
    ensures { FramesAreToldApart }
{}

/// An input begins with the frame of one right request at most.
pub fn law_frames_spell_one_request()
    ensures { FramesSpellOneRequest }
{}

/// Two answers that have the same bytes are one: whoever reads a frame knows status, level, segment, key and area.
pub fn law_answers_are_told_apart()
    ensures { AnswersAreToldApart }
{}

/// Answers that are foretold, in a frame with the same bytes, are the same answers.
pub fn law_told_answers_are_told_apart()
    ensures { ToldAnswersAreToldApart }
{}

/// What is foretold is no answer, no refusal, and not what says that a commit or a roll back is done.
pub fn law_foretold_is_told_apart()
    ensures { ForetoldIsToldApart }
{}

/// What says that a commit or a roll back is done is no answer and no refusal.
pub fn law_done_is_told_apart()
    ensures { DoneIsToldApart }
{}
