// Worked lists of events, answered by cores with few cells and many.
use crate::plain::show_plain;
use crate::script::read_events;
use crate::showing::{show_all, show_scans};
use crate::worked_rows::ROWS;
use std::test::Fail;

/// A core with 1,024 cells gives the worked answers, and cores with few cells or many, and with room for few rows or many,
/// answer scans and writes as the one that keeps nothing.
#[test]
fn worked_events(rt: HostRuntime) -> Result<(), Fail> {
    let alloc = rt.alloc();
    for row in &ROWS {
        let events = read_events(&rt, alloc, row.events)?;
        let shown = show_all(alloc, 1024, 100000, events)?;
        assert_eq!(rt; shown.as_str(), row.answers);
        let plain = show_plain(alloc, read_events(&rt, alloc, row.events)?)?;
        for (cells, limit) in [(1024, 100000), (1, 1), (2, 3), (2, 100000), (65536, 100000)] {
            let events = read_events(&rt, alloc, row.events)?;
            let shown = show_scans(alloc, cells, limit, events)?;
            assert_eq!(rt;
                shown.as_str(),
                plain.as_str(),
                "{cells} cells, {limit} rows"
            );
        }
    }
    Ok(())
}
