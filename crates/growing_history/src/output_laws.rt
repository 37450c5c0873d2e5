// Further laws on what a join makes of a table: its matches, their order, and the result at each key.
ghost use Rattle.growing_history.specs.OutputLaws.{OutAtKey, OutIsSorted, ResultIgnoresOrder, OutIgnoresAnyOrder, MatchIsCommonFit, MatchHasLeastSlots};

/// What a join makes of a table has at each key the operator's result of the values that are listed there, and nothing where nothing comes of them.
pub fn out_at_key()
    ensures { OutAtKey }
{}

/// The keys of what a join makes of a table ascend, each once.
pub fn out_is_sorted()
    ensures { OutIsSorted }
{}

/// What an operator other than `copy` makes does not depend on the order of what is given to it.
pub fn result_ignores_order()
    ensures { ResultIgnoresOrder }
{}

/// What a join that keeps the rules makes of a table with ascending keys does not depend on the order of the matches, whatever its operator.
pub fn out_ignores_any_order()
    ensures { OutIgnoresAnyOrder }
{}

/// A list of pairs is a match of a join exactly where the pairs stand in the table and there are slots under which each key fits its source, one pair for each source in the order of evaluation.
pub fn match_is_common_fit()
    ensures { MatchIsCommonFit }
{}

/// The slots of a match are the least under which its keys fit the sources.
pub fn match_has_least_slots()
    ensures { MatchHasLeastSlots }
{}
