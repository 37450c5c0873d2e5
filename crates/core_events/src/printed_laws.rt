// Laws on what is printed.
ghost use Rattle.core_events.specs.PrintedLaws.{AnswersPrintText, CellEventsPrintNothing};

/// Where events are answered plainly, what is printed for their answers is the text of the events.
pub fn answers_print_text()
    ensures { AnswersPrintText }
{}

/// The printed text is of the events that are of no cell alone.
pub fn cell_events_print_nothing()
    ensures { CellEventsPrintNothing }
{}
