// A capture, from its first byte to its last.
ghost use Rattle.std.specs.Prelude.{◌≡◌, ℕ, List, string_bytes, OnOk};
ghost use Rattle.capture.specs.Steps.{ended};
ghost use Rattle.report.specs.Reports.{heard, line_text};
ghost use Rattle.report.specs.Tallies.{tally_text};
ghost use Rattle.report.specs.Dumping.{EveryLineIsCounted, byte_read, bytes_read, dump_of, finished, line_ended, started};

use crate::tally::Tally;
use crate::told::push_line;
use capture::line::HexLine;
use cells::text::CellText;
use std::alloc::Global;
use std::fmt;
use std::io::{self, Read, Write};
use std::marker::PhantomData;

// What is known between two bytes of a capture. Its cells are of the kind `R`; `output` is where its lines are told.
#[derive(Drop)]
pub struct Dumper<'w, R, W> {
    kind: PhantomData<R>,
    // The line that is being read, once it has a character.
    line: Option<HexLine>,
    // The text that is told of a line.
    text: String,
    tally: Tally,
    output: &'w mut W,
}

impl<'w, R: CellText, W: Write> Dumper<'w, R, W> {
    fn new(heap: Global, output: &'w mut W) -> Dumper<'w, R, W>
        ensures { dump_of result ≡ started }
    {
        Dumper {
            kind: PhantomData,
            line: None,
            text: String::new(heap),
            tally: Tally::new(),
            output,
        }
    }

    // Tells the line that ends here.
    fn end_line(&mut self) -> anyhow::Result<()>
        ensures after { OnOk result (dump_of self.new ≡ line_ended R.CellRow.width R.CellRow.reads (dump_of self.old)) }
        ensures text { OnOk result (string_bytes self.new.text ≡ line_text R.CellText.text (heard R.CellRow.width R.CellRow.reads (ended (dump_of self.old).line))) }
    {
        self.text.clear();
        let outcome = match &self.line {
            Some(line) => push_line::<R>(line, &mut self.text),
            None => push_line::<R>(&HexLine::new(), &mut self.text),
        };
        // Where memory runs out, the program ends with the words of an error of formatting.
        let outcome = outcome.map_err(fmt::Error::from)?;
        self.tally.count(outcome);
        self.line = None;
        self.tell()?;
        Ok(())
    }

    // Hands the text on, as a line.
    fn tell(&mut self) -> io::Result<()>
        ensures { OnOk result ((dump_of self.new ≡ dump_of self.old) × (string_bytes self.new.text ≡ string_bytes self.old.text)) }
    {
        self.output.write_all(self.text.as_bytes())?;
        self.output.write_all(b"\n")
    }

    // One byte of the capture.
    fn byte(&mut self, b: u8) -> anyhow::Result<()>
        ensures { OnOk result (dump_of self.new ≡ byte_read R.CellRow.width R.CellRow.reads (dump_of self.old) b) }
    {
        if b == b'\n' {
            return self.end_line();
        }
        self.line.get_or_insert_default().push(b);
        Ok(())
    }

    // The bytes of the capture that were read at once.
    fn bytes(&mut self, chunk: &[u8]) -> anyhow::Result<()>
        ensures { OnOk result (dump_of self.new ≡ bytes_read R.CellRow.width R.CellRow.reads (dump_of self.old) chunk.now) }
    {
        for b in chunk {
            self.byte(*b)?;
        }
        Ok(())
    }

    // Tells a last line that lacks its line feed, and then the summary.
    fn finish(&mut self) -> anyhow::Result<()>
        ensures after { OnOk result (dump_of self.new ≡ finished R.CellRow.width R.CellRow.reads (dump_of self.old)) }
        ensures text { OnOk result (string_bytes self.new.text ≡ tally_text (dump_of self.new).tally) }
    {
        if self.line.is_some() {
            self.end_line()?;
        }
        self.text.clear();
        write!(self.text, "{}", self.tally).map_err(fmt::Error::from)?;
        self.tell()?;
        Ok(())
    }
}

// The input to its end.
fn tell_all<R: CellText, I: Read, W: Write>(
    heap: Global,
    input: &mut I,
    output: &mut W,
) -> anyhow::Result<()> {
    let mut dumper: Dumper<R, W> = Dumper::new(heap, output);
    let mut chunk = [0; 4096];
    for _ in 0..u64::MAX {
        let n = input.read(&mut chunk)?;
        if n == 0 {
            break;
        }
        dumper.bytes(&chunk[0..n])?;
    }
    dumper.finish()
}

// Reads the input to its end, and writes a line for each line of it, and a summary. Read so, each line of any
// capture is counted once, by what it spells.
pub fn dump<R: CellText, I: Read, W: Write>(
    heap: Global,
    input: &mut I,
    output: &mut W,
) -> anyhow::Result<()>
    ensures { EveryLineIsCounted R.CellRow.width R.CellRow.reads }
{
    tell_all::<R, I, W>(heap, input, output)
}
