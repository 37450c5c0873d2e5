// Groups of keys.
ghost use Rattle.std.specs.Prelude.{◌≡◌, IfSome, true};
ghost use Rattle.semantics.specs.Texts.{Text, within};
ghost use Rattle.base_versions.specs.Groups.{group_of};

use key_space::Range;

/// Finds the group of a key, which is borrowed: its second segment, where a `|` follows that. The keys of one table without a
/// third segment are one group, with the empty name. Linear in the first two segments.
pub(crate) fn group_of(key: &str) -> &str
    ensures { result.now ≡ group_of key.now }
{
    match key.split_once('|') {
        None => "",
        Some((_, behind)) => match behind.split_once('|') {
            None => "",
            Some((group, _)) => group,
        },
    }
}

/// Finds the group of which all keys of a range are: where the bounds begin alike up to the `|` behind their second segments, or
/// the last one ends with `}` in its place. None where they do not say so. Linear in the first two segments.
pub(crate) fn group_within(range: &Range) -> Option<&str>
    ensures { IfSome result (λ group. (key : Text) → within range.now key ≡ true → group_of key ≡ group.now) }
{
    let (_, low) = range.lo().split_once('|')?;
    let (group, _) = low.split_once('|')?;
    let (_, high) = range.hi().split_once('|')?;
    let behind = high.strip_prefix(group)?;
    if behind == "}" || behind.starts_with('|') {
        return Some(group);
    }
    None
}
