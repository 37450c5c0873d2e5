// What the scans of a client cost over writes elsewhere, seen by a gate that counts.
ghost use Rattle.cache_trials.specs.Seated.{AreSeats};

use crate::clients::expect_line;
use crate::playing::Counter;
use crate::seated::make_seats;
use base_shards::Naming;
use pequod_cache::{Cache, ClientService, Seats};
use std::alloc::Global;
use std::marker::Brand;
use std::process::Abort;
use std::sync::Wait;
use std::test::Fail;

/// A line that the client is sent, the line that it answers, and how often the gate was passed by then.
type Row = (&'static str, &'static str, u64);

/// The first scan of a timeline fills what is kept of it. The later ones, after a put of another table, of a poster whom nobody
/// follows, and of one who is followed, fill and mend nothing.
const OVER_WRITES: [Row; 11] = [
    (
        r#"["join","t|<user>|<time>|<poster> = check s|<user>|<poster> copy p|<poster>|<time>"]"#,
        r#"["ok",1]"#,
        0,
    ),
    (r#"["put","s|ann|bob","1"]"#, r#"["ok",2]"#, 0),
    (r#"["put","p|bob|100","Hi"]"#, r#"["ok",3]"#, 0),
    (
        r#"["scan","t|ann|","t|ann}"]"#,
        r#"["pairs",3,[["t|ann|100|bob","Hi"]]]"#,
        1,
    ),
    (r#"["put","q|x","1"]"#, r#"["ok",4]"#, 1),
    (
        r#"["scan","t|ann|","t|ann}"]"#,
        r#"["pairs",4,[["t|ann|100|bob","Hi"]]]"#,
        1,
    ),
    (r#"["put","p|cat|110","Ha"]"#, r#"["ok",5]"#, 1),
    (
        r#"["scan","t|ann|","t|ann}"]"#,
        r#"["pairs",5,[["t|ann|100|bob","Hi"]]]"#,
        1,
    ),
    (r#"["put","p|bob|120","Yo"]"#, r#"["ok",6]"#, 1),
    (
        r#"["scan","t|ann|","t|ann}"]"#,
        r#"["pairs",6,[["t|ann|100|bob","Hi"],["t|ann|120|bob","Yo"]]]"#,
        1,
    ),
    (
        r#"["scan","t|ann|","t|ann}"]"#,
        r#"["pairs",6,[["t|ann|100|bob","Hi"],["t|ann|120|bob","Yo"]]]"#,
        1,
    ),
];

/// The one client of a cache is sent the rows, each on a link of its own.
fn scan_over_writes<N: Naming, R: Wait + Abort>(
    rt: &R,
    alloc: Global,
    gate: &Counter,
    seats: Seats,
) -> Result<(), Fail>
    requires { AreSeats N.history seats }
{
    let mut clients = Cache::<N>::make(alloc, seats, 1_000, gate)?;
    let client = clients.pop().expect(rt, "a client");
    let mut service = ClientService { rt, client };
    for (line, wanted, passed) in &OVER_WRITES {
        expect_line(rt, alloc, &mut service, line, wanted)?;
        assert!(rt; gate.passed() == *passed);
    }
    Ok(())
}

#[test]
fn the_scans_of_a_client_fill_once(rt: HostRuntime) -> Result<(), Fail> {
    let alloc = rt.alloc();
    let seats = make_seats(alloc, 1, 4)?;
    scan_over_writes::<Brand, _>(&rt, alloc, &Counter::new(), seats)
}
