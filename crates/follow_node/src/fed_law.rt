// What a home's replies to feeds feed.
ghost use Rattle.follow_node.specs.FedLaw.{LinesFeedView, FeedsView};

/// Lines whose entries are those of a view feed a prefix of its writes.
pub fn lines_feed_view()
    ensures { LinesFeedView }
{}

/// What a home answers to feeds, whatever others write meanwhile, feeds a prefix of the writes that its history has in the end.
pub fn feeds_view()
    ensures { FeedsView }
{}
