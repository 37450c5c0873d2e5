// Opening doors, and taking links from them.
ghost use Rattle.std.specs.Prelude.{◌≡◌, ◌<◌, OnOk};
ghost use Rattle.pq_io.specs.Doors.{OpenedFor};
ghost use Rattle.pq_io.specs.Faults.{HasCause};
ghost use Rattle.server.specs.Doors.{HoldNone};
ghost use Rattle.server.specs.Receipts.{HasAccepted};

use door_queue::{TalliedQueue, Tally};
use pq_io::{Doors, Failed};
use std::sync::Wait;

/// Opens the doors at the address, and hands each of their links to the queue, until they are closed or fail.
/// `Failed`: they could not be opened, or failed, and no further link was asked for.
pub fn accept<D: Doors, R: Wait>(
    rt: &R,
    address: &str,
    doors: &mut D,
    queue: &TalliedQueue<D::Wire>,
    tally: &mut Tally<D::Wire>,
) -> Result<(), Failed>
    requires queue { tally.old.queue ≡ queue.now }
    requires parts { 0 < tally.old.parts }
    ensures closed { OnOk result (HoldNone (D.held doors.new)) }
    ensures opened { OpenedFor (D.opened doors.old) (D.opened doors.new) address.now result }
    ensures accepted { HasAccepted (D.held doors.old) (D.held doors.new) tally.old tally.new }
    ensures cause { HasCause (D.faults doors.old) (D.faults doors.new) result }
{
    doors.open_at(address)?;
    take_links(rt, doors, queue, tally)
}

/// Hands each link of the doors to the queue.
fn take_links<D: Doors, R: Wait>(
    rt: &R,
    doors: &mut D,
    queue: &TalliedQueue<D::Wire>,
    tally: &mut Tally<D::Wire>,
) -> Result<(), Failed>
    requires queue { tally.old.queue ≡ queue.now }
    requires parts { 0 < tally.old.parts }
    ensures closed { OnOk result (HoldNone (D.held doors.new)) }
    ensures same_opened { D.opened doors.new ≡ D.opened doors.old }
    ensures accepted { HasAccepted (D.held doors.old) (D.held doors.new) tally.old tally.new }
    ensures cause { HasCause (D.faults doors.old) (D.faults doors.new) result }
{
    for _ in rt.forever() {
        match doors.next()? {
            Some(link) => queue.put(rt, tally, link),
            None => return Ok(()),
        }
    }
    unreachable!()
}
