// Laws on the texts of replies.

ghost use Rattle.protocol.specs.ReplyLaws.{TextIsLine, TextsDiffer};

/// The byte 10 stands at the end of a reply's text, and nowhere else in it.
pub fn text_is_line()
    ensures { TextIsLine }
{}

/// Two replies with the same text are the same, where their numbers are below 2^64.
pub fn texts_differ()
    ensures { TextsDiffer }
{}
