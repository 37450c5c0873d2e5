// The arguments of the command line: options with their values, and positional words.
ghost use Rattle.std.specs.Prelude.{◌≡◌, ◌∷◌, ◌++◌, ◌<◌, ◌≤◌, [], length, map, string_bytes, option_map, false, MatchOption, IfSome};
ghost use Rattle.semantics.specs.Texts.{Text, same};
ghost use Rattle.command_words.specs.Arguments.{positional, arguments, dashes, given_by, given_once};
ghost use Rattle.command_words.specs.Plain.{plain_argument, plain_wanted};
ghost use Rattle.command_words.specs.Left.{left};

/// An argument.
#[derive(Clone, Copy, Debug)]
pub enum Argument<'a> {
    /// An option with its value.
    Valued {
        /// What stands behind its `--`.
        name: &'a str,
        /// The value.
        value: &'a str,
    },
    /// An option that no value follows.
    Lone(&'a str),
    /// A word that is of no option.
    Positional(&'a str),
}

/// What is looked for among arguments.
#[derive(Clone, Copy, Debug)]
pub enum Wanted<'a> {
    /// The positional words.
    Positional,
    /// The values of the option with this name.
    Values(&'a str),
}

/// The word that ends the options, and with which the name of an option begins.
const DASHES: &str = "--";

/// Words that are left, and whether they are all positional.
#[derive(Clone, Copy, Debug)]
pub struct Words<'a> {
    /// The words.
    pub words: &'a [String],
    /// Whether a word `--` stood before them.
    pub ended: bool,
}

impl<'a> Argument<'a> {
    /// What the argument gives of what is wanted. It compares the option's name.
    fn given_by(self, wanted: Wanted<'_>) -> Option<&'a str>
        ensures { option_map (λ text. text.now) result ≡ given_by (plain_wanted wanted.entry) (plain_argument self.entry) }
    {
        match (self, wanted) {
            (Argument::Valued { name, value }, Wanted::Values(wanted)) if name == wanted => Some(
                value,
            ),
            (Argument::Positional(word), Wanted::Positional) => Some(word),
            _ => None,
        }
    }
}

/// The first of positional words, and the others.
fn split_positional(words: &[String]) -> Option<(Argument<'_>, Words<'_>)>
    ensures arguments { MatchOption result (map positional (map string_bytes words.now) ≡ []) (λ p. map positional (map string_bytes words.now) ≡ plain_argument p.0 ∷ left p.1) }
    ensures shorter { IfSome result (λ p. length p.1.words.now < length words.now) }
{
    let (word, others) = words.split_first()?;
    let words = Words {
        words: others,
        ended: true,
    };
    Some((Argument::Positional(word.as_str()), words))
}

/// The argument whose word has this behind its dashes, and the words behind it: its value stands in the same word behind a
/// `=`, and otherwise is the next word.
fn split_option<'a>(body: &'a str, others: &'a [String]) -> (Argument<'a>, Words<'a>)
    ensures arguments { (word : Text) → word ≡ dashes ++ body.now → same word dashes ≡ false → arguments (word ∷ map string_bytes others.now) ≡ plain_argument result.0 ∷ left result.1 }
    ensures shorter { length result.1.words.now ≤ length others.now }
{
    let words = Words {
        words: others,
        ended: false,
    };
    if let Some((name, value)) = body.split_once('=') {
        return (Argument::Valued { name, value }, words);
    }
    match others.split_first() {
        None => (Argument::Lone(body), words),
        Some((value, behind)) => {
            let words = Words {
                words: behind,
                ended: false,
            };
            let value = value.as_str();
            (Argument::Valued { name: body, value }, words)
        }
    }
}

impl<'a> Words<'a> {
    /// The first argument and the words behind it, or nothing where no argument is left. Linear in its words.
    pub fn split(self) -> Option<(Argument<'a>, Words<'a>)>
        ensures arguments { MatchOption result (left self.entry ≡ []) (λ p. left self.entry ≡ plain_argument p.0 ∷ left p.1) }
        ensures shorter { IfSome result (λ p. length p.1.words.now < length self.entry.words.now) }
    {
        if self.ended {
            return split_positional(self.words);
        }
        let (word, others) = self.words.split_first()?;
        let word = word.as_str();
        if word == DASHES {
            return split_positional(others);
        }
        match word.strip_prefix(DASHES) {
            Some(body) => Some(split_option(body, others)),
            None => {
                let words = Words {
                    words: others,
                    ended: false,
                };
                Some((Argument::Positional(word), words))
            }
        }
    }
}

/// What the arguments of the words give of what is wanted, which may stand once: nothing at all where it stands more often.
/// Linear in the words.
pub fn given_once<'a>(words: Words<'a>, wanted: Wanted<'_>) -> Option<Option<&'a str>>
    ensures { option_map (option_map (λ text. text.now)) result ≡ given_once (plain_wanted wanted.entry) (left words.entry) }
{
    let mut found = None;
    let mut rest = words;
    while let Some((argument, others)) = rest.split() {
        if let Some(text) = argument.given_by(wanted) {
            if found.is_some() {
                return None;
            }
            found = Some(text);
        }
        rest = others;
    }
    Some(found)
}
