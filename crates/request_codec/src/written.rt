// The line of the answer to a scan, written pair by pair.
ghost use Rattle.std.specs.Prelude.{◌≡◌, ◌∷◌, [], map, IfOk, OnOk};
ghost use Rattle.json.specs.Token.{begin_array, end_array};
ghost use Rattle.semantics.specs.Texts.{Table};
ghost use Rattle.semantics.specs.Answers.{pairs};
ghost use Rattle.protocol.specs.Replies.{answered, pair_item, reply_text};
ghost use Rattle.request_codec.specs.AppendsLaws.{appends_more, appends_none};
ghost use Rattle.request_codec.specs.Tokens.{Appends};
ghost use Rattle.request_codec.specs.Written.{Continues, HasPairs, head_tokens};

use crate::lines::LINE_END;
use crate::writing::{write_numbered, write_texts};
use join_types::RowSink;
use json::Writer;
use out_of_memory::OutOfMemory;
use std::alloc::{AllocError, Global};
use std::marker::Model;

/// Room that a line has at first: it grows where it is used up.
const FIRST_ROOM: usize = 4_096;

/// Writes the line of the answer to a scan, pair by pair as it is handed them. It keeps nothing but the text. It is a sink of rows,
/// and takes each pair in time that is linear in its texts, but for the growth of the line. Contracts see what is written so far.
#[derive(Drop)]
pub struct PairsWriter {
    writer: Writer,
}

impl Model for PairsWriter {
    ghost use Rattle.json.specs.Written.{Written, written_code};

    ghost Value = { Written };

    ghost coded = { written_code };

    ghost view = { λ w. w.writer };
}

/// The line of the answer to a scan, whose text is not made again when it is sent. Contracts see the position and the pairs.
#[derive(Debug, Drop)]
pub struct WrittenPairs {
    position: u64,
    line: Vec<u8>,
}

impl Model for WrittenPairs {
    ghost use Rattle.request_codec.specs.Written.{WrittenView, IsLineOf, pairs_of};

    ghost Value = { WrittenView };

    ghost view = { λ w. record { position = w.position; pairs = pairs_of w.line.items } };

    ghost invariant = { λ w. IsLineOf w.position w.line.items };
}

/// Writes what stands before the pairs: a bracket, the word, and the number of entries. It takes constant time.
fn write_head(writer: &mut Writer, position: u64) -> Result<(), AllocError>
    ensures { OnOk result (Continues writer.old writer.new (begin_array ∷ head_tokens position)) }
{
    writer.begin_array()?;
    write_numbered(writer, "pairs", position)
}

/// Closes the array of the pairs, and that of the answer. It takes constant time.
fn write_end(writer: &mut Writer) -> Result<(), AllocError>
    ensures { OnOk result (Continues writer.old writer.new (end_array ∷ end_array ∷ [])) }
{
    writer.end_array()?;
    writer.end_array()
}

impl PairsWriter {
    /// Begins the line of an answer after so many entries, without pairs. It asks for 4 KiB at first.
    ///
    /// `OutOfMemory`: none was found for it.
    pub fn begin(alloc: Global, position: u64) -> Result<PairsWriter, OutOfMemory>
        ensures { IfOk result (HasPairs position []) }
    {
        let mut writer = Writer::new(Vec::with_capacity(alloc, FIRST_ROOM)?);
        write_head(&mut writer, position)?;
        writer.begin_array()?;
        Ok(PairsWriter { writer })
    }

    /// Ends the line, which was begun after so many entries. It takes constant time, but for the growth of the line.
    ///
    /// `OutOfMemory`: none was found for its end.
    pub fn end(self, position: u64) -> Result<WrittenPairs, OutOfMemory>
        requires { (rows : Table) × HasPairs position rows self }
        ensures position { IfOk result (λ done. done.position ≡ position) }
        ensures pairs { IfOk result (λ done. (rows : Table) → HasPairs position rows self → done.pairs ≡ rows) }
    {
        let PairsWriter { mut writer } = self;
        write_end(&mut writer)?;
        let mut line = writer.into_inner();
        line.push(LINE_END)?;
        Ok(WrittenPairs { position, line })
    }
}

impl RowSink for PairsWriter {
    ghost got = { λ a b rows. Appends a b (map pair_item rows) };

    ghost got_none = { λ a. appends_none a };

    ghost got_more = { λ a b c rows more first next. appends_more a b c rows more first next };

    fn push(&mut self, key: &str, value: &str) -> Result<(), OutOfMemory> {
        write_texts(&mut self.writer, key, value)?;
        Ok(())
    }
}

impl WrittenPairs {
    /// Lends the line: the text of the reply. It takes constant time.
    pub fn line(&self) -> &[u8]
        ensures { result.now ≡ reply_text (answered (pairs self.now.position self.now.pairs)) }
    {
        self.line.as_slice()
    }

    /// Tells the number of entries after which these are the pairs. It takes constant time.
    pub fn position(&self) -> u64
        ensures { result ≡ self.now.position }
    {
        self.position
    }
}
