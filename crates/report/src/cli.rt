// The command line of framedump.
ghost use Rattle.std.specs.Result.{result_ok};
ghost use Rattle.report.specs.Kinds.{Named};

use crate::dump::dump;
use cells::raw::RawBlock;
use cells::reading::ReadingRow;
use std::env;
use std::io::{BufWriter, Write};
use std::process::ExitCode;
use std::str::FromStr;

// The kind of cells that a capture has.
#[derive(Clone, Copy, PartialEq, Eq, Debug)]
pub enum Kind {
    Raw,
    Reading,
}

// A word that names no kind.
#[derive(Clone, Copy, PartialEq, Eq, Debug)]
pub struct UnknownKind;

impl FromStr for Kind {
    type Err = UnknownKind;

    ghost from_str_gives = { λ word r. Named word (result_ok r) };

    fn from_str(word: &str) -> Result<Kind, UnknownKind> {
        match word {
            "raw" => Ok(Kind::Raw),
            "reading" => Ok(Kind::Reading),
            _ => Err(UnknownKind),
        }
    }
}

// The only argument names the kind.
fn kind_asked(rt: &HostRuntime) -> anyhow::Result<Option<Kind>> {
    let mut args = env::args(rt)?.skip(1);
    match (args.next(), args.next()) {
        (Some(word), None) => Ok(word.parse().ok()),
        _ => Ok(None),
    }
}

fn dump_as(rt: &HostRuntime, kind: Kind) -> anyhow::Result<()> {
    let mut input = rt.stdin();
    let mut output = BufWriter::new(rt.alloc(), rt.stdout())?;
    match kind {
        Kind::Raw => dump::<RawBlock, _, _>(rt.alloc(), &mut input, &mut output)?,
        Kind::Reading => dump::<ReadingRow, _, _>(rt.alloc(), &mut input, &mut output)?,
    }
    output.flush()?;
    Ok(())
}

// Tells the capture on standard input, or how the program is used.
pub fn framedump(rt: HostRuntime) -> anyhow::Result<ExitCode> {
    let Some(kind) = kind_asked(&rt)? else {
        eprintln!(rt; "usage: framedump raw|reading < CAPTURE")?;
        return Ok(ExitCode::FAILURE);
    };
    dump_as(&rt, kind)?;
    Ok(ExitCode::SUCCESS)
}
