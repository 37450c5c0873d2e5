// Lines of a home, and what they feed.
ghost use Rattle.follow_node.specs.FedRows.{HomeFeeds, LinesFeed};

/// A home with a join and a pair feeds them.
pub fn home_feeds()
    ensures { HomeFeeds }
{}

/// The entries of lines are taken while each begins behind the writes before it.
pub fn lines_feed()
    ensures { LinesFeed }
{}
