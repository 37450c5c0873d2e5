// Laws on the load.
ghost use Rattle.load_gen.specs.Joins.{JoinsHaveTexts};

/// The joins of the load are those that their texts are read as.
pub fn joins_have_texts()
    ensures { JoinsHaveTexts }
{}
