// Joins.
ghost use Rattle.std.specs.Prelude.{◌≡◌, IfOk, map, string_bytes};
ghost use Rattle.semantics.specs.Joins.{is_check, is_aggregate};
ghost use Rattle.join_types.specs.Plain.{plain_op};

use key_pattern::Pattern;
use out_of_memory::OutOfMemory;
use std::alloc::Global;
use std::marker::Model;

/// An operator of a source: `Check` asks for a pair, the others make values.
#[derive(Clone, Copy, Debug, PartialEq, Eq)]
pub enum Op {
    /// Asks for a pair, whatever its value.
    Check,
    /// Gives the value of the pair.
    Copy,
    /// Counts the pairs.
    Count,
    /// Adds the values that are canonical decimals.
    Sum,
    /// Takes the least of them.
    Min,
    /// Takes the greatest of them.
    Max,
}

impl Op {
    /// Whether it is `Check`.
    pub fn is_check(self) -> bool
        ensures { result ≡ is_check (plain_op self) }
    {
        match self {
            Op::Check => true,
            Op::Copy | Op::Count | Op::Sum | Op::Min | Op::Max => false,
        }
    }

    /// Whether it makes one value of many pairs: it is neither `Check` nor `Copy`.
    pub fn is_aggregate(self) -> bool
        ensures { result ≡ is_aggregate (plain_op self) }
    {
        match self {
            Op::Check | Op::Copy => false,
            Op::Count | Op::Sum | Op::Min | Op::Max => true,
        }
    }
}

/// Whether a join's output is kept up to date or made when it is asked for. It changes no answer.
#[derive(Clone, Copy, Debug, PartialEq, Eq)]
pub enum Kind {
    /// Kept up to date.
    Push,
    /// Made when it is asked for.
    Pull,
}

/// A source of a join.
#[derive(Debug, Drop)]
pub struct JoinSource {
    /// What it takes of the pairs that fit.
    pub op: Op,
    /// The keys that it reads.
    pub pattern: Pattern,
}

impl Model for JoinSource {
    ghost use Rattle.semantics.specs.Joins.{Source};
    ghost use Rattle.join_types.specs.Plain.{plain_op};

    ghost Value = { Source };

    ghost view = { λ s. record { operator = plain_op s.op; pattern = s.pattern } };
}

/// A join: an output pattern, and sources in the order in which they are written. It has a source, at most 16 names, and
/// a name for each place; the name of place i is `names[i]`, in order of first occurrence in the text.
#[derive(Debug, Drop)]
pub struct Join {
    /// The keys that it computes.
    pub output: Pattern,
    /// When the output is made.
    pub kind: Kind,
    /// What it reads, one source or more.
    pub sources: Vec<JoinSource>,
    /// The names of its slots, by place.
    pub names: Vec<String>,
}

impl Model for Join {
    ghost use Rattle.std.specs.Prelude.{◌≡◌, map, string_bytes, true};
    ghost use Rattle.semantics.specs.Joins.{Join as PlainJoin, is_join};
    ghost use Rattle.join_types.specs.Plain.{plain_kind};

    ghost Value = { PlainJoin };

    ghost view = { λ j. record { output = j.output; kind = plain_kind j.kind; sources = j.sources.items; names = map string_bytes j.names.items } };

    ghost invariant = { λ j. is_join (record { output = j.output; kind = plain_kind j.kind; sources = j.sources.items; names = map string_bytes j.names.items }) ≡ true };
}

impl JoinSource {
    /// An equal source. Linear in the pattern.
    pub fn copy(&self, alloc: Global) -> Result<JoinSource, OutOfMemory>
        ensures { IfOk result (λ copy. copy ≡ self.now) }
    {
        let pattern = self.pattern.copy(alloc)?;
        Ok(JoinSource {
            op: self.op,
            pattern,
        })
    }
}

impl Join {
    /// An equal join. Linear in its patterns and names.
    pub fn copy(&self, alloc: Global) -> Result<Join, OutOfMemory>
        ensures { IfOk result (λ copy. copy ≡ self.now) }
    {
        let output = self.output.copy(alloc)?;
        let sources = copy_sources(alloc, self.sources.as_slice())?;
        let names = copy_names(alloc, self.names.as_slice())?;
        Ok(Join {
            output,
            kind: self.kind,
            sources,
            names,
        })
    }
}

fn copy_sources(alloc: Global, sources: &[JoinSource]) -> Result<Vec<JoinSource>, OutOfMemory>
    ensures { IfOk result (λ copies. copies.items ≡ sources.now) }
{
    let mut copies = Vec::with_capacity(alloc, sources.len())?;
    for source in sources {
        copies.push(source.copy(alloc)?)?;
    }
    Ok(copies)
}

fn copy_names(alloc: Global, names: &[String]) -> Result<Vec<String>, OutOfMemory>
    ensures { IfOk result (λ copies. map string_bytes copies.items ≡ map string_bytes names.now) }
{
    let mut copies = Vec::with_capacity(alloc, names.len())?;
    for name in names {
        copies.push(String::from_str(alloc, name.as_str())?)?;
    }
    Ok(copies)
}
