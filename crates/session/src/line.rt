// One line: its reply, and the writing of it.
ghost use Rattle.std.specs.Prelude.{◌≡◌, ◌≢◌, ◌≤◌, [], ◌∷◌, Err, OnOk, IfErr};
ghost use Rattle.protocol.specs.Replies.{Reply as PlainReply, reply_text, bye};
ghost use Rattle.protocol.specs.Session.{Serves};
ghost use Rattle.pq_io.specs.Faults.{HasCause, Rose};
ghost use Rattle.pq_io.specs.Streams.{Took, TookProperPrefix};
ghost use Rattle.request_codec.specs.Plain.{plain_reply};
ghost use Rattle.session.specs.Serving.{HasSmallPosition, IsPlain, IsSentAs, Sends};

use crate::{End, Service};
use pq_io::{Failed, Link, write_link};
use request_codec::{LineFault, Reply, Request, memory_line, read, write, write_ok};
use std::alloc::Global;

/// The line of `Bye`.
const BYE_LINE: &[u8] = b"[\"bye\"]\n";

/// The line of `Bye`, which takes no memory.
fn bye_line() -> &'static [u8]
    ensures { result.now ≡ reply_text bye }
{
    BYE_LINE
}

/// What a line is answered: its fault, `Bye` where it is `["quit"]`, or the service's answer. A line for which no memory
/// is found is answered `Memory`, and the service is not asked.
fn answer_line<S: Service>(alloc: Global, service: &mut S, line: &[u8]) -> Reply
    ensures served { Serves (S.view service.old) (S.view service.new) (S.number service.old) (line.now ∷ []) (plain_reply result ∷ []) }
    ensures same_number { S.number service.new ≡ S.number service.old }
{
    match read(alloc, line) {
        Ok(Request::Quit) => Reply::Bye,
        Ok(request) => service.answer(request),
        Err(LineFault::OutOfMemory(memory)) => Reply::Memory(memory),
        Err(fault) => Reply::Unread(fault),
    }
}

/// Writes a text to the link.
/// `WriteFault`: a write failed, after a part of the text that is not the whole.
pub fn send<L: Link>(link: &mut L, text: &[u8]) -> Result<(), End>
    ensures whole { OnOk result (Took (L.taken link.old) (L.taken link.new) text.now) }
    ensures part { IfErr result (λ end. (end ≡ End.WriteFault) × TookProperPrefix (L.taken link.old) (L.taken link.new) text.now) }
    ensures cause { HasCause (L.write_faults link.old) (L.write_faults link.new) result }
    ensures same_left { L.left link.new ≡ L.left link.old }
    ensures same_read_faults { L.read_faults link.new ≡ L.read_faults link.old }
    ensures same_borrows { L.borrows link.new ≡ L.borrows link.old }
{
    match write_link(link, text) {
        Ok(()) => Ok(()),
        Err(Failed) => Err(End::WriteFault),
    }
}

/// Writes the line of a reply that is neither `Done` nor `Bye`. Where no memory is found for it, the service makes room, and the
/// line of `Memory` is written.
/// `WriteFault`: a write failed.
fn send_text<S: Service, L: Link>(
    alloc: Global,
    service: &S,
    link: &mut L,
    reply: &Reply,
) -> Result<(), End>
    requires has_text { reply.now ≢ Reply.Unread (LineFault.OutOfMemory tt) }
    requires plain { IsPlain (plain_reply reply.now) }
    ensures sent { (sent : PlainReply) × IsSentAs (plain_reply reply.now) sent × Sends result (L.taken link.old) (L.taken link.new) sent }
    ensures cause { HasCause (L.write_faults link.old) (L.write_faults link.new) result }
    ensures same_left { L.left link.new ≡ L.left link.old }
    ensures same_read_faults { L.read_faults link.new ≡ L.read_faults link.old }
    ensures same_borrows { L.borrows link.new ≡ L.borrows link.old }
{
    match write(alloc, reply) {
        Ok(text) => send(link, text.as_slice()),
        Err(memory) => {
            service.make_room();
            send(link, memory_line(&memory))
        }
    }
}

/// Writes the line of a reply, or that of `Memory` where no memory is found for it. The lines of `Done`, `Written`, `Memory` and
/// `Bye` take none. Before that of `Memory` is written the service makes room: who was answered so may ask again at once.
/// `Quit`: it was `Bye`. `WriteFault`: a write failed.
fn send_reply<S: Service, L: Link>(
    alloc: Global,
    service: &S,
    link: &mut L,
    reply: &Reply,
) -> Result<(), End>
    requires { HasSmallPosition (plain_reply reply.now) }
    ensures sent { (sent : PlainReply) × IsSentAs (plain_reply reply.now) sent × Sends result (L.taken link.old) (L.taken link.new) sent }
    ensures later { L.write_faults link.old ≤ L.write_faults link.new }
    ensures cause { result ≡ Err End.WriteFault → Rose (L.write_faults link.old) (L.write_faults link.new) }
    ensures kept { result ≢ Err End.WriteFault → L.write_faults link.new ≡ L.write_faults link.old }
    ensures same_left { L.left link.new ≡ L.left link.old }
    ensures same_read_faults { L.read_faults link.new ≡ L.read_faults link.old }
    ensures same_borrows { L.borrows link.new ≡ L.borrows link.old }
{
    match reply {
        Reply::Done(position) => {
            let line = write_ok(*position);
            send(link, &line.bytes[..line.len])
        }
        Reply::Bye => match send(link, bye_line()) {
            Ok(()) => Err(End::Quit),
            Err(end) => Err(end),
        },
        Reply::Memory(memory) => {
            service.make_room();
            send(link, memory_line(memory))
        }
        Reply::Unread(fault) => match fault {
            LineFault::OutOfMemory(memory) => send(link, memory_line(memory)),
            _ => send_text(alloc, service, link, reply),
        },
        Reply::Written(scan) => send(link, scan.line()),
        reply => send_text(alloc, service, link, reply),
    }
}

/// Answers a line and writes its reply, before anything else is read. Where it is answered `Memory`, the service makes room.
/// `Quit`: it was answered `Bye`. `WriteFault`: a write failed.
pub fn serve_line<S: Service, L: Link>(
    alloc: Global,
    service: &mut S,
    link: &mut L,
    line: &[u8],
) -> Result<(), End>
    ensures served { (sent : PlainReply) × Serves (S.view service.old) (S.view service.new) (S.number service.old) (line.now ∷ []) (sent ∷ []) × Sends result (L.taken link.old) (L.taken link.new) sent }
    ensures same_number { S.number service.new ≡ S.number service.old }
    ensures later { L.write_faults link.old ≤ L.write_faults link.new }
    ensures cause { result ≡ Err End.WriteFault → Rose (L.write_faults link.old) (L.write_faults link.new) }
    ensures kept { result ≢ Err End.WriteFault → L.write_faults link.new ≡ L.write_faults link.old }
    ensures same_left { L.left link.new ≡ L.left link.old }
    ensures same_read_faults { L.read_faults link.new ≡ L.read_faults link.old }
    ensures same_borrows { L.borrows link.new ≡ L.borrows link.old }
{
    let reply = answer_line(alloc, service, line);
    send_reply(alloc, service, link, &reply)
}
