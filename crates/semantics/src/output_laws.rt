// Laws on what a join makes of a table.
ghost use Rattle.semantics.specs.OutputLaws.{MatchesAreChoices, OutReadsSources, OutputFixesSource, OutIgnoresOrder};

/// The matches of a join are those choices of one pair of the table for each source, in the order of evaluation, whose keys fit the sources under common slots.
pub fn matches_are_choices()
    ensures { MatchesAreChoices }
{}

/// What a join makes of a table depends on those pairs alone that fit one of its sources.
pub fn out_reads_sources()
    ensures { OutReadsSources }
{}

/// In a copy join that keeps the rules, two matches that fill one output key have one key for the copy source.
pub fn output_fixes_source()
    ensures { OutputFixesSource }
{}

/// What a copy join that keeps the rules makes of a table with ascending keys does not depend on the order of the matches.
pub fn out_ignores_order()
    ensures { OutIgnoresOrder }
{}
