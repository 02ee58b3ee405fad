// Prints the sheet of the chart on standard input (document 01, "The printed sheet"). What can't be read or written is said on standard error.
#![tactic(auto)]

ghost use Rattle.std.specs.Prelude.{OnOk, IfSome};
ghost use Rattle.std.specs.Io.KnownBytes.{Appends};
ghost use Rattle.sheet.specs.Sheet.{sheet_text};

use input_read::read_full;
use std::io::{Read, Write};
use std::{fmt, io};

// What failed, and why.
#[derive(Debug, Drop)]
enum Failure {
    Input(io::Error),
    Output(io::Error),
}

impl fmt::Display for Failure {
    fn fmt<W: fmt::Write>(&self, f: &mut fmt::Formatter<W>) -> fmt::Result {
        match self {
            Failure::Input(error) => write!(f, "standard input: {error}"),
            Failure::Output(error) => write!(f, "standard output: {error}"),
        }
    }
}

// Shows the sheet of an input. No sheet is longer than the room for it.
fn show<W: Write>(output: &mut W, input: &[u8]) -> Result<(), Failure>
    ensures { OnOk result (Appends (W.contents output.old) (W.contents output.new) (sheet_text input.now)) }
{
    let mut text = [0u8; 65536];
    match sheet::write_sheet(input, &mut text) {
        Ok(n) => match output.write_all(&text[..n]) {
            Ok(()) => Ok(()),
            Err(error) => Err(Failure::Output(error)),
        },
        Err(_) => unreachable!(),
    }
}

// Shows the sheet of all that an input holds. One byte more than the longest input tells that an input is too long.
fn print<R: Read, W: Write>(input: &mut R, output: &mut W) -> Result<(), Failure>
    ensures { OnOk result (IfSome (R.remaining input.old) (λ bytes. Appends (W.contents output.old) (W.contents output.new) (sheet_text bytes))) }
{
    let mut bytes = [0u8; 4097];
    match read_full(input, &mut bytes) {
        Ok(n) => show(output, &bytes[..n]),
        Err(error) => Err(Failure::Input(error)),
    }
}

fn main(rt: HostRuntime) {
    if let Err(failure) = print(&mut rt.stdin(), &mut rt.stdout()) {
        let _ = eprintln!(rt; "{failure}");
    }
}
