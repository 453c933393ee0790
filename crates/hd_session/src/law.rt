ghost use Rattle.hd_session.specs.Laws.{ForetoldAnswersComeTrue, LogsLoseNoUpdate, SessionsAnswerTheirLogs};

/// No update is lost between the PCBs of a session: each replace or delete that was answered blank works on just the rows and bytes that its
/// PCB's last hold returned, and no other call has touched them since.
pub fn law_no_lost_update()
    ensures { LogsLoseNoUpdate }
{}

/// The calls that are made in a session, interleaved over its PCBs in whatever way, come to a legal log: it begins with the rows of the one forest
/// that the volume holds and all PCBs before them, and has one entry for each call, in their order. Want of memory stands in it only at an ISRT, a
/// REPL that makes a row longer, or a call with more than four segment search arguments.
///
/// So a program that keeps to the contracts of `Session::open`, `call` and `flush` concludes it: from no call made, call by call, to the log.
pub fn law_sessions_answer_their_logs()
    ensures { SessionsAnswerTheirLogs }
{}

/// Calls that were foretold, made one after another, are answered as they were foretold.
pub fn law_foretold_answers_come_true()
    ensures { ForetoldAnswersComeTrue }
{}
