// The laws on the text of a join. Each function has an empty body, and its contract is the law.
ghost use Rattle.join_lang.specs.JoinTextLaws.{ReadsJoins, ReadsBack, ReadsEachWritable};

/// What a text is read as is a join.
pub fn reads_joins()
    ensures { ReadsJoins }
{}

/// The canonical text of a join that was read is read as that join.
pub fn reads_back()
    ensures { ReadsBack }
{}

/// Every join that keeps the rule on names is read from its canonical text, where that has at most 4,096 bytes, and each pattern in
/// it at most 512.
pub fn reads_each_writable()
    ensures { ReadsEachWritable }
{}
