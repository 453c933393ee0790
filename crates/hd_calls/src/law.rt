ghost use Rattle.hd_calls.specs.NoLostUpdate.{NoLostUpdate};
ghost use Rattle.hd_calls.specs.Laws.{SpansAreTheRowsBelow, SpansMayBeSkipped, NewRowsGoBetweenTwins, CallsKeepStatesSound, RunsStaySound};

/// A row of a span has the span's row on its path, and no other row has.
pub fn law_spans_are_the_rows_below()
    ensures { SpansAreTheRowsBelow }
{}

/// A search whose test is false on the rest of a span may go on behind the span.
pub fn law_spans_may_be_skipped()
    ensures { SpansMayBeSkipped }
{}

/// A new row goes in just behind the span of the last row of its parent that need not come after it, between its twins in key
/// order.
pub fn law_new_rows_go_between_twins()
    ensures { NewRowsGoBetweenTwins }
{}

/// Each call, whatever it comes to, leaves the rows valid, and every PCB's position in range.
pub fn law_calls_keep_states_sound()
    ensures { CallsKeepStatesSound }
{}

/// In every run from valid rows and all PCBs at the start, whatever its images are, each state has valid rows and all positions in
/// range.
pub fn law_runs_stay_sound<Image>()
    ensures { RunsStaySound Image }
{}

/// In every run from the start, whatever its images are, each replace or delete that was answered blank works on just the rows
/// and bytes that its PCB's last hold returned, and no other call has touched them since.
pub fn law_no_lost_update<Image>()
    ensures { NoLostUpdate Image }
{}
