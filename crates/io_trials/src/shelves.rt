// Shelves in memory and of files.
use crate::holding::holds;
use pq_io::{FileShelf, MAX_FILE_BYTES, MemShelf, Shelf, TakeFault};
use std::alloc::Global;
use std::fs;
use std::process::Abort;
use std::test::Fail;

/// Holds the calls of a shelf to how many bytes they are to give, or why none.
fn gives<F: Shelf>(
    rt: &impl Abort,
    alloc: Global,
    shelf: &mut F,
    wanted: &[(&str, Result<usize, TakeFault>)],
) {
    for (call, (name, answer)) in wanted.iter().enumerate() {
        let given = match shelf.take(alloc, name) {
            Ok(bytes) => Ok(bytes.len()),
            Err(fault) => Err(fault),
        };
        holds(rt, 0, call, given == *answer);
    }
}

#[test]
fn a_shelf_gives_its_files(rt: HostRuntime) -> Result<(), Fail> {
    let alloc = rt.alloc();
    let mut files = Vec::new(alloc);
    for (name, count) in [
        ("a", 3),
        ("most", MAX_FILE_BYTES),
        ("more", MAX_FILE_BYTES + 1),
        ("a", 4),
    ] {
        files.push((String::from_str(alloc, name)?, vec![in alloc; b'x'; count]?))?;
    }
    let mut shelf = MemShelf::new(files, [2].to_vec(alloc)?);
    gives(
        &rt,
        alloc,
        &mut shelf,
        &[
            ("a", Ok(3)),
            ("a", Err(TakeFault::Failed)),
            ("most", Ok(MAX_FILE_BYTES)),
            ("more", Err(TakeFault::Failed)),
            ("none", Err(TakeFault::Failed)),
        ],
    );
    holds(
        &rt,
        1,
        0,
        shelf.take(alloc, "a")?.as_slice() == b"xxx".as_slice(),
    );
    Ok(())
}

#[test]
fn a_shelf_gives_files_of_the_system(rt: HostRuntime) -> Result<(), Fail> {
    let alloc = rt.alloc();
    let join = b"a|<x> = copy b|<x>";
    fs::write(&rt, "joins", join)?;
    for (name, count) in [("most", MAX_FILE_BYTES), ("more", MAX_FILE_BYTES + 1)] {
        fs::write(&rt, name, vec![in alloc; b'x'; count]?)?;
    }
    let mut shelf = FileShelf::new(&rt);
    holds(
        &rt,
        1,
        0,
        shelf.take(alloc, "joins")?.as_slice() == join.as_slice(),
    );
    gives(&rt, alloc, &mut shelf, &[("most", Ok(MAX_FILE_BYTES))]);
    holds(&rt, 1, 1, shelf.faults() == 0);
    gives(
        &rt,
        alloc,
        &mut shelf,
        &[
            ("more", Err(TakeFault::Failed)),
            ("none", Err(TakeFault::Failed)),
        ],
    );
    holds(&rt, 1, 2, shelf.faults() == 2);
    for name in ["joins", "most", "more"] {
        fs::remove_file(&rt, name)?;
    }
    Ok(())
}
