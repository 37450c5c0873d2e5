// The text of a join, read.
ghost use Rattle.std.specs.Prelude.{◌≡◌, ◌≤◌, [], ◌∷◌, length, IfOk, IfErr, Ok, option_map};
ghost use Rattle.protocol.specs.JoinText.{operator_of, read_kind, read_sources, read_some_sources, onto_sources, join_of_tokens, read_join};
ghost use Rattle.join_types.specs.Plain.{plain_op, plain_kind};
ghost use Rattle.join_lang.specs.Faults.{IsFaultOf};
ghost use Rattle.join_lang.specs.Words.{plain_word, tokens_of};
ghost use Rattle.join_lang.specs.Steps.{join_of_output};

use crate::fault::ParseFault;
use crate::names::Names;
use crate::patterns::read_pattern;
use crate::tokens::{MAX_TEXT_BYTES, Tokens, Word};
use join_types::{Join, JoinSource, Kind, Op};
use key_pattern::Pattern;
use std::alloc::Global;

/// The operator of a word, if it is one.
fn operator_of(word: &str) -> Option<Op>
    ensures { option_map plain_op result ≡ operator_of word.now }
{
    match word {
        "check" => Some(Op::Check),
        "copy" => Some(Op::Copy),
        "count" => Some(Op::Count),
        "sum" => Some(Op::Sum),
        "min" => Some(Op::Min),
        "max" => Some(Op::Max),
        _ => None,
    }
}

/// The kind, with `push` or `pull` where one comes next, and the word behind it, which is taken too.
fn read_kind<'a>(tokens: &mut Tokens<'a>) -> (Kind, Option<Word<'a>>)
    ensures kind { plain_kind result.0 ≡ (read_kind tokens.old).0 }
    ensures rest { tokens_of result.1 tokens.new ≡ (read_kind tokens.old).1 }
{
    let Some(word) = tokens.next() else {
        return (Kind::Push, None);
    };
    match word.text {
        "push" => (Kind::Push, tokens.next()),
        "pull" => (Kind::Pull, tokens.next()),
        _ => (Kind::Push, Some(word)),
    }
}

/// The source that begins with this word.
fn read_source(
    alloc: Global,
    end: usize,
    names: &mut Names,
    word: Word<'_>,
    tokens: &mut Tokens<'_>,
) -> Result<JoinSource, ParseFault>
    ensures ok { IfOk result (λ source. read_sources end names.old (plain_word word.entry ∷ tokens.old) ≡ onto_sources source (read_sources end names.new tokens.new)) }
    ensures fault { IfErr result (IsFaultOf (read_sources end names.old (plain_word word.entry ∷ tokens.old))) }
    ensures shorter { length tokens.new ≤ length tokens.old }
{
    let Some(op) = operator_of(word.text) else {
        return Err(ParseFault::Syntax { at: word.at });
    };
    let Some(token) = tokens.next() else {
        return Err(ParseFault::Syntax { at: end });
    };
    match read_pattern(alloc, names, token.text)? {
        Some(pattern) => Ok(JoinSource { op, pattern }),
        None => Err(ParseFault::Syntax { at: token.at }),
    }
}

/// The sources from this word to the end of the text, of which one is wanted at least.
fn read_sources<'a>(
    alloc: Global,
    end: usize,
    names: &mut Names,
    first: Option<Word<'a>>,
    tokens: &mut Tokens<'a>,
) -> Result<Vec<JoinSource>, ParseFault>
    ensures ok { IfOk result (λ sources. read_some_sources end names.old (tokens_of first.entry tokens.old) ≡ Ok (sources.items, names.new)) }
    ensures fault { IfErr result (IsFaultOf (read_some_sources end names.old (tokens_of first.entry tokens.old))) }
{
    let mut sources = Vec::new(alloc);
    let mut next = first;
    while let Some(word) = next {
        sources.push(read_source(alloc, end, names, word, tokens)?)?;
        next = tokens.next();
    }
    if sources.is_empty() {
        return Err(ParseFault::Syntax { at: end });
    }
    Ok(sources)
}

/// The output, with `=` behind it.
fn read_output(
    alloc: Global,
    end: usize,
    names: &mut Names,
    tokens: &mut Tokens<'_>,
) -> Result<Pattern, ParseFault>
    requires { names.old ≡ [] }
    ensures ok { IfOk result (λ output. join_of_tokens end tokens.old ≡ join_of_output end output names.new tokens.new) }
    ensures fault { IfErr result (IsFaultOf (join_of_tokens end tokens.old)) }
{
    let Some(token) = tokens.next() else {
        return Err(ParseFault::Syntax { at: end });
    };
    let Some(output) = read_pattern(alloc, names, token.text)? else {
        return Err(ParseFault::Syntax { at: token.at });
    };
    let Some(equals) = tokens.next() else {
        return Err(ParseFault::Syntax { at: end });
    };
    if equals.text != "=" {
        return Err(ParseFault::Syntax { at: equals.at });
    }
    Ok(output)
}

/// The join of tokens, where the text ends at `end`.
fn read_tokens(alloc: Global, end: usize, mut tokens: Tokens<'_>) -> Result<Join, ParseFault>
    ensures ok { IfOk result (λ join. join_of_tokens end tokens.entry ≡ Ok join) }
    ensures fault { IfErr result (IsFaultOf (join_of_tokens end tokens.entry)) }
{
    let mut names = Names::new(alloc);
    let output = read_output(alloc, end, &mut names, &mut tokens)?;
    let (kind, first) = read_kind(&mut tokens);
    let sources = read_sources(alloc, end, &mut names, first, &mut tokens)?;
    let names = names.into_list();
    Ok(Join {
        output,
        kind,
        sources,
        names,
    })
}

/// The join that a text is. It reads each token once: linear in the text, with the names for each slot.
///
/// `Syntax` comes exactly where the text is no join: `at` is the offset of the first byte of the first token that is not
/// accepted in its place, the text's length where a token is wanted at its end, and 4,096 where the text has more bytes.
/// It may report that it found no memory for what the join holds.
pub fn parse(alloc: Global, text: &str) -> Result<Join, ParseFault>
    ensures ok { IfOk result (λ join. read_join text.now ≡ Ok join) }
    ensures fault { IfErr result (IsFaultOf (read_join text.now)) }
{
    if text.len() > MAX_TEXT_BYTES {
        return Err(ParseFault::Syntax { at: MAX_TEXT_BYTES });
    }
    read_tokens(alloc, text.len(), Tokens::of(text))
}
