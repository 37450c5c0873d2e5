// The answers of a pull.
ghost use Rattle.follow_node.specs.Rows.{AnswersEach};

/// What a line is says what is answered at it, unless memory runs out.
pub fn answers_each()
    ensures { AnswersEach }
{}
