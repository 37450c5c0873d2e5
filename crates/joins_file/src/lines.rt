// The lines of a file of joins.
ghost use Rattle.std.specs.Prelude.{◌≡◌, ◌<◌, ◌==◌, ◌∷◌, [], length, MatchOption, IfSome};
ghost use Rattle.std.specs.List.{list_all};
ghost use Rattle.protocol.specs.JoinsFile.{file_lines, is_skipped, without_return};

/// The line without one byte 13 at its end.
fn without_return(line: &[u8]) -> &[u8]
    ensures { result.now ≡ without_return line.now }
{
    line.strip_suffix(b"\r").unwrap_or(line)
}

/// The first line of a text, without one byte 13 at its end, and what follows it, or nothing where the text has no line. One search
/// for the line's end.
pub fn split_first_line(bytes: &[u8]) -> Option<(&[u8], &[u8])>
    ensures lines { MatchOption result (file_lines bytes.now ≡ []) (λ found. file_lines bytes.now ≡ found.0.now ∷ file_lines found.1.now) }
    ensures shorter { IfSome result (λ found. length found.1.now < length bytes.now) }
{
    match request_codec::split_first_line(bytes) {
        Some((line, rest)) => Some((without_return(line), rest)),
        None => None,
    }
}

/// Whether a line has spaces alone, or nothing.
fn is_blank(line: &[u8]) -> bool
    ensures { result ≡ list_all (λ b. b == 32) line.now }
{
    line.iter().all(|byte| *byte == b' ')
}

/// Whether a line is skipped: it is empty, has spaces alone, or begins with `#`.
pub fn is_skipped(line: &[u8]) -> bool
    ensures { result ≡ is_skipped line.now }
{
    is_blank(line) || line.first() == Some(&b'#')
}
