// Replies held to plain evaluation.
use crate::asking::{Ask, answer_afresh, line_of};
use key_space::{Key, Range};
use plain_history::PlainHistory;
use request_codec::{Reply, Request};
use std::alloc::Global;
use std::process::Abort;

/// What a client asked, and what it was answered.
#[derive(Drop)]
pub struct Answered {
    pub ask: Ask,
    pub reply: Reply,
}

impl Answered {
    /// How many entries the reply names.
    pub fn position<R: Abort>(&self, rt: &R) -> u64 {
        match &self.reply {
            Reply::Done(position)
            | Reply::Found(position, _)
            | Reply::Absent(position)
            | Reply::Pairs(position, _)
            | Reply::Refused(position, _)
            | Reply::Gone(position)
            | Reply::Ahead(position)
            | Reply::Changes(_, position, _)
            | Reply::Entries(_, position, _) => *position,
            Reply::Written(scan) => scan.position(),
            _ => panic!(rt; "a reply that names no position"),
        }
    }

    /// Whether the position is that of the request, where the request is a scan at a position.
    fn is_of_request(&self) -> bool {
        self.ask.is_scan_at() && matches!(self.reply, Reply::Pairs(_, _))
    }

    /// Whether it is a write that entered.
    fn has_entered(&self) -> bool {
        matches!(self.reply, Reply::Done(_))
    }
}

/// No reply names fewer entries than one before it, but where the request names them, and each write that entered comes behind all
/// of these.
pub fn expect_ascending<R: Abort>(rt: &R, answers: &[Answered]) {
    let mut last = 0;
    for (place, answered) in answers.iter().enumerate() {
        if answered.is_of_request() {
            continue;
        }
        let position = answered.position(rt);
        let later = last < position || last == position && !answered.has_entered();
        assert!(rt; later, "answer {place}: position {position} after {last}");
        last = position;
    }
}

/// What stands after a beginning of the history: the history, which judges its writes, and the writes that its state follows from,
/// which are the last put at each key where a pair stands, hidden or not, and the declarations of the joins that stand, with their
/// positions. Reads after this beginning are answered by plain evaluation of a history of these writes alone, which is made once
/// one is asked after a write.
#[derive(Drop)]
pub struct Afresh {
    alloc: Global,
    plain: PlainHistory,
    joins: Vec<(u64, Ask)>,
    puts: Vec<(Key, Ask)>,
    reader: Option<PlainHistory>,
}

impl Afresh {
    /// What stands after no entries.
    pub fn new(alloc: Global) -> Afresh {
        Afresh {
            alloc,
            plain: PlainHistory::new(alloc),
            joins: Vec::new(alloc),
            puts: Vec::new(alloc),
            reader: None,
        }
    }

    /// A history of the writes that the state follows from, and no others.
    fn make_reader<R: Abort>(&self, rt: &R) -> PlainHistory {
        let mut reader = PlainHistory::new(self.alloc);
        let joins = self.joins.iter().map(|(_, ask)| ask);
        // The puts come first: while a join stands nothing is put under its output.
        for ask in self.puts.iter().map(|(_, ask)| ask).chain(joins) {
            let reply = answer_afresh(rt, ask.request(rt, self.alloc), &mut reader);
            assert!(rt; matches!(reply, Reply::Done(_)));
        }
        reader
    }

    /// What a read, which names no position, finds in the state at this point.
    fn read<R: Abort>(&mut self, rt: &R, request: Request) -> Reply {
        let mut reader = match self.reader.take() {
            Some(reader) => reader,
            None => self.make_reader(rt),
        };
        let found = answer_afresh(rt, request, &mut reader);
        self.reader = Some(reader);
        let position = self.plain.len();
        match found {
            Reply::Found(_, value) => Reply::Found(position, value),
            Reply::Absent(_) => Reply::Absent(position),
            Reply::Pairs(_, pairs) => Reply::Pairs(position, pairs),
            _ => panic!(rt; "position {position}: evaluation afresh answers no read"),
        }
    }

    /// The reply to a scan at a position.
    fn read_at<R: Abort>(&mut self, rt: &R, range: Range, at: u64) -> Reply {
        if at == self.plain.len() {
            return self.read(rt, Request::Scan(range));
        }
        answer_afresh(rt, Request::ScanAt(range, at), &mut self.plain)
    }

    /// The reply to a request at this point. To a write that no cause refuses it is the one that is given as it enters.
    fn reply<R: Abort>(&mut self, rt: &R, ask: Ask) -> Reply {
        match ask.request(rt, self.alloc) {
            Request::Get(key) => self.read(rt, Request::Get(key)),
            Request::Scan(range) => self.read(rt, Request::Scan(range)),
            Request::ScanAt(range, at) => self.read_at(rt, range, at),
            request => answer_afresh(rt, request, &mut self.plain),
        }
    }

    /// Takes out the put at a key, if there is one.
    fn take_out(&mut self, key: &Key) {
        if let Some(place) = self.puts.iter().position(|(at, _)| at == key) {
            self.puts.swap_remove(place);
        }
    }

    /// Takes out the join that was declared at a position.
    fn take_out_join(&mut self, position: u64) {
        self.joins.retain(|(declared, _)| *declared != position);
    }

    /// The state is the one after a write at a position, which no cause refuses.
    fn enter<R: Abort>(&mut self, rt: &R, ask: Ask, position: u64) {
        self.reader = None;
        match ask.request(rt, self.alloc) {
            Request::Put(key, _) => {
                self.take_out(&key);
                assert!(rt; self.puts.push((key, ask)).is_ok(), "memory");
            }
            Request::Remove(key) => self.take_out(&key),
            Request::Declare(_) => assert!(rt; self.joins.push((position, ask)).is_ok(), "memory"),
            Request::Drop(declared) => self.take_out_join(declared),
            _ => panic!(rt; "it is no write"),
        }
    }

    /// The client was answered what is right at this point.
    fn expect<R: Abort>(&mut self, rt: &R, answered: &Answered) {
        let position = answered.position(rt);
        let wanted = self.reply(rt, answered.ask);
        let wanted = line_of(rt, self.alloc, &wanted);
        let found = line_of(rt, self.alloc, &answered.reply);
        let is_right = found.as_slice() == wanted.as_slice();
        assert!(rt; is_right, "position {position}");
        if answered.has_entered() {
            self.enter(rt, answered.ask, position);
        }
    }

    /// Goes on by the entry that these replies name as the last, and holds them to what stands then.
    pub fn go_on<R: Abort>(&mut self, rt: &R, answers: &[Answered]) {
        for answered in answers.iter().filter(|answered| answered.has_entered()) {
            self.expect(rt, answered);
        }
        for answered in answers.iter().filter(|answered| !answered.has_entered()) {
            self.expect(rt, answered);
        }
    }
}
