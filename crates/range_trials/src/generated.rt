// Generated histories, held to evaluation afresh.
ghost use Rattle.semantics.specs.Verdicts.{AllEntered};

use crate::script::show_pairs;
use crate::telling::Told;
use join_model::afresh;
use key_space::Range;
use std::alloc::Global;
use std::process::Abort;
use std::test::Fail;

/// Numbers that follow from a first one.
#[derive(Drop)]
pub struct Dice {
    /// The last one, with all its bits.
    pub state: u64,
}

impl Dice {
    /// The next number, below 16.
    pub fn roll(&mut self) -> u64 {
        self.state = self
            .state
            .wrapping_mul(6364136223846793005)
            .wrapping_add(1442695040888963407);
        self.state >> 60
    }
}

/// Follows and posts, for a copy join with a check.
pub const POSTS: [&str; 17] = [
    "t|<u>|<n>|<w> = check s|<u>|<w> copy p|<w>|<n>",
    "s|ann|bob=1",
    "s|ann|bob",
    "s|ann|cat=1",
    "s|ann|cat",
    "s|dan|bob=1",
    "p|bob|1=A",
    "p|bob|1=B",
    "p|bob|1",
    "p|bob|2=C",
    "p|bob|2",
    "p|cat|1=D",
    "p|cat|1",
    "p|cat|3=E",
    "s|ann|eve=1",
    "p|eve|1=F",
    "s|ann|bob=1",
];

/// Members, what groups list, and posts, for a copy join with two checks.
pub const GROUPS: [&str; 17] = [
    "t|<u>|<n> = check m|<u>|<g> check g|<g>|<n> copy p|<n>",
    "m|ann|a=1",
    "m|ann|a",
    "m|ann|b=1",
    "m|ann|b",
    "g|a|7=1",
    "g|a|7",
    "g|b|7=1",
    "g|b|7",
    "g|a|8=1",
    "p|7=A",
    "p|7=B",
    "p|7",
    "p|8=C",
    "p|8",
    "m|ann|a=1",
    "p|7=D",
];

/// Numbers and what is none, for a sum.
pub const NUMBERS: [&str; 17] = [
    "t|<a>|<b> = sum n|<a>|<b>|<i>",
    "n|ann|x|1=5",
    "n|ann|x|1=-5",
    "n|ann|x|1",
    "n|ann|x|2=7",
    "n|ann|x|2=z",
    "n|ann|x|2",
    "n|ann|y|1=3",
    "n|ann|y|1",
    "n|bob|x|1=1",
    "n|ann|x|3=11",
    "n|ann|x|3",
    "n|ann|y|2=0",
    "n|ann|y|2",
    "n|ann|x|1=2",
    "n|ann|y|1=-9",
    "n|bob|x|1",
];

/// What stands in the range after the first p entries, as a read shows it.
fn show_afresh(
    rt: &impl Abort,
    alloc: Global,
    told: &Told,
    p: usize,
    range: &Range,
    text: &mut String,
) -> Result<(), Fail>
    requires { AllEntered told.now.entries.items }
{
    let entries = told.entries.as_slice();
    if entries.len() < p {
        panic!(rt; "too few entries");
    }
    let pairs = afresh(alloc, &entries[..p], range)?;
    show_pairs(text, pairs.as_slice())?;
    text.push(';')?;
    Ok(())
}

/// The lines of a history of 24 entries: the first one, and then others as the dice fall.
pub fn roll_lines(alloc: Global, lines: &[&str; 17], dice: &mut Dice) -> Result<String, Fail> {
    let mut text = String::new(alloc);
    text.push_str(lines[0])?;
    for _ in 0..23_u64 {
        text.push('\n')?;
        text.push_str(lines[(1 + dice.roll() % 16) as usize])?;
    }
    Ok(text)
}

/// A script of calls at ascending positions, with what it should answer.
pub fn roll_script(
    rt: &impl Abort,
    alloc: Global,
    told: &Told,
    range: &Range,
    dice: &mut Dice,
) -> Result<(String, String), Fail>
    requires { AllEntered told.now.entries.items }
{
    let first = 1 + dice.roll() % 8;
    let mut script = format!(in alloc; "fill {first}")?;
    let mut wanted = String::new(alloc);
    for p in first..25 {
        if dice.roll() < 6 {
            script.push_str(format!(in alloc; ", advance {p}")?.as_str())?;
            if dice.roll() < 8 {
                script.push_str(", mend, read")?;
                show_afresh(rt, alloc, told, p as usize, range, &mut wanted)?;
            }
        }
    }
    script.push_str(", advance 24, mend, read")?;
    show_afresh(rt, alloc, told, 24, range, &mut wanted)?;
    Ok((script, wanted))
}
