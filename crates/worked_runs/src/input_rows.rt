// Runs by how the input comes and ends.
ghost use Rattle.worked_runs.specs.InputRows.{Starved, Quits, Unended, TooLong};

/// A line for which no memory is found enters nothing, and ends nothing where it is `quit`.
pub fn starved()
    ensures { Starved }
{}

/// `quit` is answered, and nothing after it.
pub fn quits()
    ensures { Quits }
{}

/// What follows the last byte 10 is a line where the input has ended, and none where it has not.
pub fn unended()
    ensures { Unended }
{}

/// A line of more than 1,048,576 bytes is answered `long`, whatever its bytes are, and what follows it is not answered. So
/// many bytes are not computed one by one: it is a law over all such lines.
pub fn too_long()
    ensures { TooLong }
{}
