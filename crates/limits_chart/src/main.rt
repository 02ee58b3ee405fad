// Both sides of every limit of the documents for charts, what is made of them and the printed sheet. A line of standard input asks one thing: a letter for
// the call, its numbers, and words that say what is tried. It is printed again with the number that came back and two values beside it. The file stdout has
// what the documents say; stdin explains the letters.
#![tactic(auto)]

mod answers;
mod charts;
mod classes;
mod mends;
mod sheets;
mod tables;
mod traces;

use input_read::read_full;
use limits_script::{line_end, numbers};
use std::io::Result;

// Answers a line of numbers where its letter is a call's.
fn answer(rt: &impl Print, letter: u8, v: &[u16; 64]) -> Result<()> {
    match letter {
        b'c' => charts::read(rt, v),
        b'C' => charts::read_built(rt, v),
        b'v' => charts::write(rt, v),
        b'V' => charts::write_built(rt, v),
        b'd' => charts::write_directed(rt, v),
        b'm' => mends::mend(rt, v),
        b'M' => mends::mend_built(rt, v),
        b'1' => traces::first(rt, v),
        b'2' => traces::next(rt, v),
        b'T' => tables::write(rt, v),
        b'p' => classes::pass(rt, v),
        b'q' => classes::step(rt, v),
        b's' => sheets::zeros(rt, v),
        b'S' => sheets::thousand(rt, v),
        _ => Ok(()),
    }
}

// Each line of a text in turn: printed, and answered by its letter and its numbers.
fn answer_all(rt: &impl Print, text: &[u8]) -> Result<()> {
    let mut at = 0;
    while at < text.len() {
        let end = line_end(text, at);
        let line = &text[at..end];
        rt.write_all(line)?;
        answer(rt, line.first().copied().unwrap_or(0), &numbers(line))?;
        println!(rt)?;
        at = end + 1;
    }
    Ok(())
}

// What stands past the first 65,536 bytes is not read.
fn main(rt: HostRuntime) -> Result<()> {
    let mut input = [0u8; 65536];
    let n = read_full(&mut rt.stdin(), &mut input)?;
    answer_all(&rt, &input[..n])
}
