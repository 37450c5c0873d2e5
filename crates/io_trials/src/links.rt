// Links and doors in memory.
use crate::holding::holds;
use crate::streams::source_of;
use pq_io::{Both, Doors, Failed, Link, MemDoors, MemLink, MemSink, write_link};
use std::process::Abort;
use std::test::Fail;

/// Reads once and writes what was read twice.
fn say_twice<L: Link>(link: &mut L) -> Result<(), Failed> {
    let mut into = [0u8; 2];
    let count = link.read(&mut into)?;
    write_link(link, &into[..count])?;
    write_link(link, &into[..count])
}

#[test]
fn a_link_reads_and_writes(rt: HostRuntime) -> Result<(), Fail> {
    let alloc = rt.alloc();
    let table: [(&[usize], &[usize], Result<(), Failed>, &[u8]); 3] = [
        (&[], &[], Ok(()), b"abab"),
        (&[1], &[], Err(Failed), b""),
        (&[], &[2], Err(Failed), b"ab"),
    ];
    for (row, (read_fails, write_fails, wanted, taken)) in table.iter().enumerate() {
        let mut source = source_of(alloc, &[], read_fails)?;
        let mut sink = MemSink::new(alloc, write_fails.to_vec(alloc)?);
        let said = say_twice(&mut Both::new(&mut source, &mut sink));
        holds(&rt, row, 0, said == *wanted);
        holds(&rt, row, 1, sink.bytes() == *taken);
        let source = source_of(alloc, &[], read_fails)?;
        let sink = MemSink::new(alloc, write_fails.to_vec(alloc)?);
        let mut link = MemLink::new(source, sink);
        holds(&rt, row, 2, say_twice(&mut link) == *wanted);
        holds(&rt, row, 3, link.bytes() == *taken);
    }
    Ok(())
}

/// What the next link of some doors gives into a buffer of eight bytes. None where the doors are closed.
fn read_next<D: Doors>(doors: &mut D) -> Result<Option<[u8; 8]>, Failed> {
    match doors.next()? {
        None => Ok(None),
        Some(mut link) => {
            let mut into = [0; 8];
            link.read(&mut into)?;
            Ok(Some(into))
        }
    }
}

#[test]
fn doors_give_their_links_and_close(rt: HostRuntime) -> Result<(), Fail> {
    let alloc = rt.alloc();
    let mut links = Vec::new(alloc);
    for fails in [[].as_slice(), [1].as_slice()] {
        let sink = MemSink::new(alloc, Vec::new(alloc));
        links.push(MemLink::new(source_of(alloc, &[], fails)?, sink))?;
    }
    let mut doors = MemDoors::new(links, vec![in alloc; 2]?);
    holds(&rt, 0, 0, doors.open_at("anywhere") == Ok(()));

    // The first link gives its bytes, then the doors fail, then the second link does, and then they are closed.
    let table = [
        Ok(Some(*b"abcd\0\0\0\0")),
        Err(Failed),
        Err(Failed),
        Ok(None),
    ];
    for (call, wanted) in table.into_iter().enumerate() {
        holds(&rt, 1, call, read_next(&mut doors) == wanted);
    }
    let mut doors = MemDoors::<MemLink>::new(Vec::new(alloc), vec![in alloc; 0]?);
    holds(&rt, 2, 0, doors.open_at("anywhere") == Err(Failed));
    Ok(())
}

/// Holds the doors to telling that they were opened at these addresses, in order.
fn were_opened_at(rt: &impl Abort, row: usize, doors: &MemDoors<MemLink>, wanted: &[&str]) {
    let Some(told) = doors.opened() else {
        return holds(rt, row, 0, false);
    };
    holds(rt, row, 1, told.len() == wanted.len());
    for (address, wanted) in told.iter().zip(wanted.iter()) {
        holds(rt, row, 2, address.as_str() == *wanted);
    }
}

#[test]
fn doors_keep_the_addresses_at_which_they_were_opened(rt: HostRuntime) -> Result<(), Fail> {
    let alloc = rt.alloc();
    let mut doors = MemDoors::<MemLink>::new(Vec::new(alloc), Vec::new(alloc));
    were_opened_at(&rt, 0, &doors, &[]);
    doors.open_at("here")?;
    doors.open_at("")?;
    were_opened_at(&rt, 1, &doors, &["here", ""]);
    let mut doors = MemDoors::<MemLink>::new(Vec::new(alloc), vec![in alloc; 0]?);
    holds(&rt, 2, 0, doors.open_at("here") == Err(Failed));
    were_opened_at(&rt, 3, &doors, &[]);
    Ok(())
}

#[test]
fn doors_keep_the_receipts_that_came_back(rt: HostRuntime) -> Result<(), Fail> {
    let alloc = rt.alloc();
    let sink = MemSink::new(alloc, Vec::new(alloc));
    let mut link = MemLink::new(source_of(alloc, &[], &[])?, sink);
    let mut doors = MemDoors::<MemLink>::new(Vec::new(alloc), Vec::new(alloc));
    holds(&rt, 0, 0, doors.returned().is_empty());
    write_link(&mut link, b"[\"ok\",1]\n")?;
    doors.take_back(vec![in alloc; vec![in alloc; link.finish(None)]?]?);
    let lists = doors.returned();
    assert!(rt; lists.len() == 1 && lists[0].len() == 1);
    holds(
        &rt,
        1,
        0,
        lists[0][0].link.bytes() == b"[\"ok\",1]\n".as_slice(),
    );
    Ok(())
}
