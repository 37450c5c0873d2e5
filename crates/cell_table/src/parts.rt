// Parts of a range, from its pieces.
ghost use Rattle.std.specs.Prelude.{◌≡◌, map, IfOk};
ghost use Rattle.cell_table.specs.Stores.{part_of};

use cell_slots::Part;
use out_of_memory::OutOfMemory;
use range_set::Piece;
use std::alloc::Global;

/// A piece as a part.
fn part_of(piece: Piece<u32>) -> Part
    ensures { result ≡ part_of piece }
{
    match piece {
        Piece::Kept(range, id) => Part {
            range,
            cell: Some(id),
        },
        Piece::Gap(range) => Part { range, cell: None },
    }
}

/// The pieces as parts, in their order. Linear in them.
pub fn parts_of(alloc: Global, pieces: Vec<Piece<u32>>) -> Result<Vec<Part>, OutOfMemory>
    ensures { IfOk result (λ parts. parts.items ≡ map part_of pieces.items) }
{
    let mut parts = Vec::with_capacity(alloc, pieces.len())?;
    for piece in pieces {
        parts.push(part_of(piece))?;
    }
    Ok(parts)
}
