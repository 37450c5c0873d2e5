// What clients ask.
ghost use Rattle.std.specs.Prelude.{◌<◌, length};

use join_lang::parse;
use join_types::Cause;
use key_space::{Key, Range, Value};
use plain_history::PlainHistory;
use rand_core::utils::NextWord;
use rand_pcg::Lcg64Xsh32;
use request_codec::{Reply, Request, write};
use session::Service;
use std::alloc::Global;
use std::process::Abort;

/// Joins of ranks 0 to 3, each above those that it reads, and then other versions of them, with which some have other ranks, or
/// would read one another in a circle. The output of `page` is never kept.
pub const JOINS: [&str; 10] = [
    "t|<user>|<time>|<poster> = check s|<user>|<poster> copy p|<poster>|<time>",
    "karma|<poster> = sum v|<poster>|<user>",
    "votes|<poster> = count v|<poster>|<user>",
    "best|<poster> = max v|<poster>|<user>",
    "top|<user>|<poster> = check s|<user>|<poster> copy karma|<poster>",
    "page|<user>|<poster> = pull check top|<user>|<poster> copy votes|<poster>",
    "wall|<user>|<time>|<poster>|<other> = check page|<user>|<other> copy t|<user>|<time>|<poster>",
    "karma|<poster> = copy votes|<poster>",
    "votes|<poster> = copy karma|<poster>",
    "t|<user>|<time>|<poster> = check v|<poster>|<user> copy p|<poster>|<time>",
];

/// How many of the joins are declared first.
pub const FIRST_JOINS: usize = 7;

/// The tables that are written, those of the outputs, and one that no join reads.
pub const TABLES: [&str; 11] = [
    "s", "p", "v", "t", "karma", "votes", "best", "top", "page", "wall", "fill",
];

/// A user, who is a poster too: of them there are few, so that most of what is asked meets what others wrote.
#[derive(Clone, Copy)]
enum Person {
    Ann,
    Bob,
    Cat,
}

/// All of them.
const PEOPLE: [Person; 3] = [Person::Ann, Person::Bob, Person::Cat];

/// How many times posts have. They are the values of votes too.
const TIMES: u32 = 4;

/// Of so many requests one declares or drops a join.
const REQUESTS_FOR_A_CHANGE: u32 = 32;

/// Of `OTHERS` requests that neither declare nor drop a join so many are scans.
const SCANS: u32 = 19;

/// How many there are of those requests and scans together.
const OTHERS: u32 = 33;

/// What a scan goes over.
#[derive(Clone, Copy)]
enum View {
    Timeline,
    /// All timelines from the midst of one on.
    Timelines,
    Tops,
    Page,
    Walls,
    /// All of the table at a place of `TABLES`.
    Whole(usize),
}

/// The views as they are drawn, each as often as it stands here.
const VIEWS: [View; 19] = [
    View::Timeline,
    View::Timeline,
    View::Timeline,
    View::Timelines,
    View::Timelines,
    View::Tops,
    View::Tops,
    View::Tops,
    View::Page,
    View::Page,
    View::Page,
    View::Walls,
    View::Walls,
    View::Walls,
    View::Whole(1),
    View::Whole(2),
    View::Whole(3),
    View::Whole(8),
    View::Whole(9),
];

/// A kind of request.
#[derive(Clone, Copy)]
enum Act {
    /// The join at a place of `JOINS`.
    Declare(usize),
    /// The join that was declared at a position.
    Drop(u64),
    Subscribe,
    Unsubscribe,
    Post,
    Retract,
    Vote,
    Unvote,
    /// A put at a key that is computed while the join of timelines stands.
    Intrude,
    /// A remove of such a key.
    Withdraw,
    /// A put at a key of `karma`.
    Claim,
    /// A put in the table that no join reads.
    Fill,
    Karma,
    Best,
    Scan,
    /// A scan after so many entries.
    ScanAt(u64),
    /// What changed in what is scanned since so many entries.
    Changes(u64),
    /// The entries after so many.
    Feed(u64),
}

/// The kinds as they are drawn, each as often as it stands here, beside scans, declarations and drops.
const DRAWN: [Act; 14] = [
    Act::Subscribe,
    Act::Unsubscribe,
    Act::Post,
    Act::Post,
    Act::Retract,
    Act::Vote,
    Act::Unvote,
    Act::Intrude,
    Act::Withdraw,
    Act::Claim,
    Act::Karma,
    Act::Karma,
    Act::Best,
    Act::Best,
];

/// One request: its kind, what it scans, and whom and when it is about.
#[derive(Clone, Copy)]
pub struct Ask {
    act: Act,
    view: View,
    user: Person,
    poster: Person,
    time: u32,
}

impl Person {
    /// The name that stands in keys.
    fn name(self) -> &'static str {
        match self {
            Person::Ann => "ann",
            Person::Bob => "bob",
            Person::Cat => "cat",
        }
    }
}

/// One of these.
fn pick<T: Copy>(generator: &mut Lcg64Xsh32, choices: &[T]) -> T
    requires { 0 < length choices.now }
{
    choices[generator.next_word() as usize % choices.len()]
}

/// A declaration of one of the joins, or one time of four a drop of the join at this position.
fn draw_change(generator: &mut Lcg64Xsh32, position: u64) -> Act {
    match generator.next_word() % 4 {
        0 => Act::Drop(position),
        _ => Act::Declare(generator.next_word() as usize % JOINS.len()),
    }
}

/// A position that is drawn, one of the first so many.
pub fn draw_position(generator: &mut Lcg64Xsh32, count: u64) -> u64 {
    u64::from(generator.next_word()) % count.max(1)
}

/// A kind of request that neither declares nor drops a join.
fn draw_other(generator: &mut Lcg64Xsh32) -> Act {
    if generator.next_word() % OTHERS < SCANS {
        Act::Scan
    } else {
        pick(generator, &DRAWN)
    }
}

/// The position of the join that stands by what a declaration was answered: its own, or that of the join whose output its
/// output overlaps.
pub fn position_told(reply: &Reply) -> Option<u64> {
    match reply {
        Reply::Done(position) | Reply::Refused(_, Cause::Clash(position)) => Some(*position),
        _ => None,
    }
}

/// A key of these segments.
fn key<R: Abort>(rt: &R, alloc: Global, segments: &[&str]) -> Key {
    let text = segments.join(alloc, "|").expect(rt, "memory");
    Key::read(alloc, text.as_str()).expect(rt, "a key")
}

/// The range of the keys that go on behind these segments.
fn behind<R: Abort>(rt: &R, alloc: Global, segments: &[&str]) -> Range {
    let text = segments.join(alloc, "|").expect(rt, "memory");
    let low = format!(in alloc; "{text}|").expect(rt, "memory");
    let high = format!(in alloc; "{text}}}").expect(rt, "memory");
    Range::read(alloc, low.as_str(), high.as_str()).expect(rt, "a range")
}

/// The range from a key of these segments on to the end of its table.
fn from<R: Abort>(rt: &R, alloc: Global, segments: &[&str]) -> Range {
    let low = segments.join(alloc, "|").expect(rt, "memory");
    let table = segments.first().expect(rt, "a table");
    let high = format!(in alloc; "{table}}}").expect(rt, "memory");
    Range::read(alloc, low.as_str(), high.as_str()).expect(rt, "a range")
}

impl Ask {
    /// A request that declares the join at a place of `JOINS`.
    pub fn declare(place: usize) -> Ask {
        Ask::of(Act::Declare(place), View::Timeline)
    }

    /// Whether it declares a join.
    pub fn is_declaration(&self) -> bool {
        matches!(self.act, Act::Declare(_))
    }

    /// A request for all of the table at a place of `TABLES`.
    pub fn whole(place: usize) -> Ask {
        Ask::of(Act::Scan, View::Whole(place))
    }

    /// A request of a kind for which it does not matter whom and when it is about.
    fn of(act: Act, view: View) -> Ask {
        Ask {
            act,
            view,
            user: Person::Ann,
            poster: Person::Ann,
            time: 1,
        }
    }

    /// A put, whose key is drawn, in the table that no join reads.
    pub fn fill(generator: &mut Lcg64Xsh32) -> Ask {
        Ask {
            user: pick(generator, &PEOPLE),
            time: 1 + generator.next_word() % TIMES,
            ..Ask::of(Act::Fill, View::Timeline)
        }
    }

    /// A request of a kind, of which all else is drawn.
    fn about(generator: &mut Lcg64Xsh32, act: Act) -> Ask {
        Ask {
            act,
            view: pick(generator, &VIEWS),
            user: pick(generator, &PEOPLE),
            poster: pick(generator, &PEOPLE),
            time: 1 + generator.next_word() % TIMES,
        }
    }

    /// A request that is drawn, and asks for no earlier position. A drop is of the join at this position.
    pub fn draw(generator: &mut Lcg64Xsh32, position: u64) -> Ask {
        let act = if generator.next_word() % REQUESTS_FOR_A_CHANGE == 0 {
            draw_change(generator, position)
        } else {
            draw_other(generator)
        };
        Ask::about(generator, act)
    }

    /// A declaration or a drop that is drawn, a drop of the join at this position.
    pub fn change(generator: &mut Lcg64Xsh32, position: u64) -> Ask {
        let act = draw_change(generator, position);
        Ask::about(generator, act)
    }

    /// A scan that is drawn.
    pub fn scan(generator: &mut Lcg64Xsh32) -> Ask {
        Ask::about(generator, Act::Scan)
    }

    /// A request for what it scans after so many entries.
    pub fn at(self, position: u64) -> Ask {
        Ask {
            act: Act::ScanAt(position),
            ..self
        }
    }

    /// A request for what changed in what it scans since so many entries.
    pub fn since(self, position: u64) -> Ask {
        Ask {
            act: Act::Changes(position),
            ..self
        }
    }

    /// A request for the entries after so many.
    pub fn feed(position: u64) -> Ask {
        Ask::of(Act::Feed(position), View::Timeline)
    }

    /// A request that is drawn and asks for an earlier position, where there are so many entries. The position may lie just ahead.
    pub fn look_back(generator: &mut Lcg64Xsh32, entries: u64) -> Ask {
        let position = draw_position(generator, entries.saturating_add(2));
        let ask = Ask::scan(generator);
        if generator.next_word() % 2 == 0 {
            ask.at(position)
        } else {
            ask.since(position)
        }
    }

    /// Whether it is a scan at a position.
    pub fn is_scan_at(&self) -> bool {
        matches!(self.act, Act::ScanAt(_))
    }

    /// The time as it stands in keys.
    fn time_text<R: Abort>(&self, rt: &R, alloc: Global) -> String {
        format!(in alloc; "{}", self.time).expect(rt, "memory")
    }

    /// What it scans.
    fn range<R: Abort>(&self, rt: &R, alloc: Global) -> Range {
        let user = self.user.name();
        match self.view {
            View::Timeline => behind(rt, alloc, &["t", user]),
            View::Timelines => {
                let time = self.time_text(rt, alloc);
                let time = time.as_str();
                from(rt, alloc, &["t", user, time])
            }
            View::Tops => behind(rt, alloc, &["top", user]),
            View::Page => behind(rt, alloc, &["page", user]),
            View::Walls => behind(rt, alloc, &["wall", user]),
            View::Whole(place) => {
                let table = TABLES.get(place).expect(rt, "a table");
                behind(rt, alloc, &[table])
            }
        }
    }

    /// The request.
    pub fn request<R: Abort>(&self, rt: &R, alloc: Global) -> Request {
        let (user, poster) = (self.user.name(), self.poster.name());
        let time = self.time_text(rt, alloc);
        let time = time.as_str();
        let put = |segments: &[&str], text: &str| {
            let value = Value::read(alloc, text).expect(rt, "a value");
            Request::Put(key(rt, alloc, segments), value)
        };
        match self.act {
            Act::Declare(place) => {
                let text = JOINS.get(place).expect(rt, "a join");
                Request::Declare(parse(alloc, text).expect(rt, "a join"))
            }
            Act::Drop(position) => Request::Drop(position),
            Act::Subscribe => put(&["s", user, poster], "1"),
            Act::Unsubscribe => Request::Remove(key(rt, alloc, &["s", user, poster])),
            Act::Post => put(&["p", poster, time], user),
            Act::Retract => Request::Remove(key(rt, alloc, &["p", poster, time])),
            Act::Vote => put(&["v", poster, user], time),
            Act::Unvote => Request::Remove(key(rt, alloc, &["v", poster, user])),
            Act::Intrude => put(&["t", user, time, poster], "no"),
            Act::Withdraw => Request::Remove(key(rt, alloc, &["t", user, time, poster])),
            Act::Claim => put(&["karma", poster], time),
            Act::Fill => put(&["fill", user, time], time),
            Act::Karma => Request::Get(key(rt, alloc, &["karma", poster])),
            Act::Best => Request::Get(key(rt, alloc, &["best", poster])),
            Act::Scan => Request::Scan(self.range(rt, alloc)),
            Act::ScanAt(position) => Request::ScanAt(self.range(rt, alloc), position),
            Act::Changes(position) => Request::Changes(self.range(rt, alloc), position),
            Act::Feed(position) => Request::Feed(position),
        }
    }

    /// What a client answers to the request.
    pub fn put_to<S: Service, R: Abort>(&self, rt: &R, alloc: Global, client: &mut S) -> Reply {
        match self.request(rt, alloc) {
            Request::Quit => panic!(rt; "no client is asked to quit"),
            request => client.answer(request),
        }
    }
}

/// What plain evaluation answers to a request.
pub fn answer_afresh<R: Abort>(rt: &R, request: Request, history: &mut PlainHistory) -> Reply {
    match request {
        Request::Quit => panic!(rt; "no client is asked to quit"),
        request => history.answer(request).expect(rt, "memory"),
    }
}

/// The line of a reply.
pub fn line_of<R: Abort>(rt: &R, alloc: Global, reply: &Reply) -> Vec<u8> {
    match reply {
        Reply::Unread(_) => panic!(rt; "a request was not read"),
        reply => write(alloc, reply).expect(rt, "memory"),
    }
}
