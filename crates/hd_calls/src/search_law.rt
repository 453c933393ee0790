ghost use Rattle.hd_calls.specs.SearchSpans.{ResolvedSsasDescend, SatisfyingRowsAreNamed, NamedRowsAreAdmitted, SpansFail, OtherTypesFail, UnreadSpansFail, SpansAreByPath};
ghost use Rattle.hd_calls.specs.SearchTwins.{NextTwinsFollow, TwinsFail, EarlierTwinsFail, PastKeysFail, EarlierRootsFail, LastTwinsHaveL};
ghost use Rattle.hd_calls.specs.SearchWays.{WaysDownAreUnique, FirstChildrenFollow, NoLaterTypesFail, LaterTypesFollow};
ghost use Rattle.hd_calls.specs.SearchLevels.{PathsAreByLevel, TypesAreByLevel, PathRowsAreByLevel};
ghost use Rattle.hd_calls.specs.SearchStarts.{OnlyTheTopmostLowers, FirstChildrenAreByPath, ParentsComeFirst};

/// The types of a call's SSAs descend.
pub fn law_resolved_ssas_descend()
    ensures { ResolvedSsasDescend }
{}

/// With SSAs a row satisfies where they name it and its type may be read.
pub fn law_satisfying_rows_are_named()
    ensures { SatisfyingRowsAreNamed }
{}

/// What SSAs ask of a row's path is asked of its rows one by one.
pub fn law_named_rows_are_admitted()
    ensures { NamedRowsAreAdmitted }
{}

/// In the span of a row that is not admitted no row is named.
pub fn law_spans_fail()
    ensures { SpansFail }
{}

/// In the span of a row of another type than those on the way no row is named.
pub fn law_other_types_fail()
    ensures { OtherTypesFail }
{}

/// A get without SSAs may pass over the span of a row where the PCB may read neither its type nor one below it.
pub fn law_unread_spans_fail()
    ensures { UnreadSpansFail }
{}

/// A row is in the span of another just where that is on its path.
pub fn law_spans_are_by_path()
    ensures { SpansAreByPath }
{}

/// Behind the span of a row no row is named before its next twin.
pub fn law_next_twins_follow()
    ensures { NextTwinsFollow }
{}

/// Where no later twin is admitted either, the rest of the parent's rows fail.
pub fn law_twins_fail()
    ensures { TwinsFail }
{}

/// Where neither a row nor a twin before a later one is admitted, the rows before that fail.
pub fn law_earlier_twins_fail()
    ensures { EarlierTwinsFail }
{}

/// Once a row's key is past what is asked of it, the rest of the parent's rows fail.
pub fn law_past_keys_fail()
    ensures { PastKeysFail }
{}

/// Where no root before a row is admitted, no row before it is named.
pub fn law_earlier_roots_fail()
    ensures { EarlierRootsFail }
{}

/// L without a qualification is true of the last twin alone.
pub fn law_last_twins_have_l()
    ensures { LastTwinsHaveL }
{}

/// There is one child type on the way down to a type.
pub fn law_ways_down_are_unique()
    ensures { WaysDownAreUnique }
{}

/// From a row on no row is named before its first child of the type on the way down.
pub fn law_first_children_follow()
    ensures { FirstChildrenFollow }
{}

/// Where a row's type is off the way and none beside it on the way comes later, the rest of the parent's rows fail.
pub fn law_no_later_types_fail()
    ensures { NoLaterTypesFail }
{}

/// A row stands before its parent's first child of a later type.
pub fn law_later_types_follow()
    ensures { LaterTypesFollow }
{}

/// A path has a row on each level down to its last row's.
pub fn law_paths_are_by_level()
    ensures { PathsAreByLevel }
{}

/// The row of a type on a path is the one of the type's level.
pub fn law_types_are_by_level()
    ensures { TypesAreByLevel }
{}

/// What a get returns and holds are the rows of its types' levels.
pub fn law_path_rows_are_by_level()
    ensures { PathRowsAreByLevel }
{}

/// Of the SSAs with F only the topmost can lower the start of a search.
pub fn law_only_the_topmost_lowers()
    ensures { OnlyTheTopmostLowers }
{}

/// Whether a first child lies behind a row is told by the row's path.
pub fn law_first_children_are_by_path()
    ensures { FirstChildrenAreByPath }
{}

/// GNP begins where GN does, but never before the row behind the parent.
pub fn law_parents_come_first()
    ensures { ParentsComeFirst }
{}
