// The receipts of links, which go back to the doors that gave them, and where these were opened.
use crate::copying::serve_by;
use pequod_commands::Status;
use pq_io::{MemDoors, MemLink, MemSink, MemSource, OpenGate};
use std::alloc::Global;
use std::test::Fail;

/// The words of one worker, without a joins file.
const ALONE: [&str; 4] = ["serve", "127.0.0.1:7000", "--workers", "1"];

/// The lines of links, one after another, and what each is answered.
const LINKS: [(&str, &str); 3] = [
    ("[\"put\",\"a|1\",\"Hi\"]\n", "[\"ok\",1]\n"),
    ("", ""),
    (
        "[\"get\",\"a|1\"]\n[\"quit\"]\n",
        "[\"value\",1,\"Hi\"]\n[\"bye\"]\n",
    ),
];

/// Makes a source of the text.
fn source_of(alloc: Global, text: &str) -> Result<MemSource, Fail> {
    let bytes = text.as_bytes().to_vec(alloc)?;
    Ok(MemSource::new(bytes, Vec::new(alloc), Vec::new(alloc)))
}

/// Makes a link over each of the lines.
fn make_links(alloc: Global) -> Result<Vec<MemLink>, Fail> {
    let mut links = Vec::new(alloc);
    for (lines, _) in LINKS {
        let sink = MemSink::new(alloc, Vec::new(alloc));
        links.push(MemLink::new(source_of(alloc, lines)?, sink))?;
    }
    Ok(links)
}

/// Whether the doors tell that they were opened once, at the address.
fn is_opened_once(doors: &MemDoors<MemLink>, address: &str) -> bool {
    match doors.opened() {
        Some(all) => all.len() == 1 && all[0].as_str() == address,
        None => false,
    }
}

#[test]
fn links_come_back_with_what_they_took(rt: HostRuntime) -> Result<(), Fail> {
    let alloc: Global = rt.alloc();
    let links = make_links(alloc)?;
    let doors = serve_by(&rt, &ALONE, links, Vec::new(alloc), &OpenGate, Status::DONE)?;
    assert!(rt; is_opened_once(&doors, ALONE[1]));
    let lists = doors.returned();
    assert!(rt; lists.len() == 1 && lists[0].len() == LINKS.len());
    for ((_, answers), receipt) in LINKS.iter().zip(lists[0].as_slice()) {
        assert!(rt; receipt.refused.is_none());
        assert!(rt; receipt.link.bytes() == answers.as_bytes());
    }
    Ok(())
}
