// Texts that are cut at the first of a byte.
ghost use Rattle.std.specs.Prelude.{◌<◌};
ghost use Rattle.join_lang.specs.Cuts.{IsCut};

/// What stands before the first `separator`, and what stands behind it, where it occurs. Linear in what stands before.
pub fn cut_at(text: &str, separator: char) -> (&str, Option<&str>)
    requires { separator < 128 }
    ensures { IsCut separator text.now result.0.now result.1 }
{
    match text.split_once(separator) {
        Some((first, rest)) => (first, Some(rest)),
        None => (text, None),
    }
}
