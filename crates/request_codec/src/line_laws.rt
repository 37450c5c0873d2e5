// Laws on lines that are cut from pieces.

ghost use Rattle.request_codec.specs.Feeding.{CutsAny, CutsLines};

/// Pieces that are fed one after another, each line being cleared once it has ended, give the lines of the whole text.
pub fn cuts_lines()
    ensures { CutsLines }
{}

/// Any pieces can be fed so, and give lines.
pub fn cuts_any()
    ensures { CutsAny }
{}
