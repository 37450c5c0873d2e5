// Lines of requests: what is read, or the first fault.
//
// A line is refused by the first of: it is no JSON value in UTF-8, none of the forms, has no key, no value, no range, or a text
// that stops being a join at a byte. A key has at most 512 bytes, a value at most 65,536.
use crate::answer::Answer;
use crate::words::read_latin;
use request_codec::{LineFault, Request, read, read_value};
use serde_json::Value as Json;
use std::alloc::Global;
use test_rows::{Fields, unescape};

/// Tells a request in words.
fn tell_request(request: &Request, answer: &mut Answer) {
    match request {
        Request::Put(key, value) => {
            answer.say("put");
            answer.say(key.text());
            answer.say(value.text());
        }
        Request::Remove(key) => {
            answer.say("remove");
            answer.say(key.text());
        }
        Request::Get(key) => {
            answer.say("get");
            answer.say(key.text());
        }
        Request::Scan(range) => {
            answer.say("scan");
            answer.say(range.lo());
            answer.say(range.hi());
        }
        Request::ScanAt(range, at) => {
            answer.say("scan");
            answer.say(range.lo());
            answer.say(range.hi());
            answer.tell(at);
        }
        Request::Changes(range, from) => {
            answer.say("changes");
            answer.say(range.lo());
            answer.say(range.hi());
            answer.tell(from);
        }
        Request::Feed(from) => {
            answer.say("feed");
            answer.tell(from);
        }
        Request::Declare(join) => {
            answer.say("join of");
            answer.tell(&join.sources.len());
        }
        Request::Drop(position) => {
            answer.say("drop");
            answer.tell(position);
        }
        Request::Quit => answer.say("quit"),
    }
}

/// Tells what is read.
fn tell_read(found: Result<Request, LineFault>, answer: &mut Answer) {
    match found {
        Ok(request) => tell_request(&request, answer),
        Err(fault) => answer.show(&fault),
    }
}

/// Runs a row of this kind.
pub fn run(alloc: Global, kind: &str, fields: &mut Fields<'_>, answer: &mut Answer) -> Option<()> {
    let text = unescape(alloc, fields.next()).ok()?;
    let found = match kind {
        "line" => read(alloc, text.as_bytes()),
        "latin" => {
            let line = read_latin(alloc, text.as_str())?;
            read(alloc, line.as_slice())
        }
        "value" => {
            let value = Json::from_str(alloc, text.as_str()).ok()?;
            read_value(alloc, &value)
        }
        _ => return None,
    };
    tell_read(found, answer);
    Some(())
}
