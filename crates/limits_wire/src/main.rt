// Both sides of every limit of document 01 for frames, routing tables and ledgers. A line of standard input asks one thing: a letter for the call, its
// numbers, and words that say what is tried. It is printed again with the number that came back and the values beside it. The file stdout has what
// document 01 says; stdin explains the letters.
#![tactic(auto)]

mod answers;
mod frames;
mod ledgers;
mod tables;

use input_read::read_full;
use limits_script::{line_end, numbers};
use std::io::Result;

// Answers a line of numbers where its letter is a call's.
fn answer(rt: &impl Print, letter: u8, v: &[u16; 64]) -> Result<()> {
    match letter {
        b'w' => frames::write(rt, v),
        b'f' => frames::read(rt, v),
        b'F' => frames::read_written(rt, v),
        b't' => tables::choose(rt, v),
        b'a' => ledgers::accept(rt, v),
        b'l' => ledgers::tick(rt, v),
        b'n' => ledgers::answer(rt, v),
        b'k' => ledgers::clear(rt, v),
        _ => Ok(()),
    }
}

// Each line of a text in turn: printed, and answered by its letter and its numbers.
fn answer_all(rt: &impl Print, text: &[u8]) -> Result<()> {
    let mut at = 0;
    while at < text.len() {
        let end = line_end(text, at);
        let line = &text[at..end];
        rt.write_all(line)?;
        answer(rt, line.first().copied().unwrap_or(0), &numbers(line))?;
        println!(rt)?;
        at = end + 1;
    }
    Ok(())
}

// What stands past the first 65,536 bytes is not read.
fn main(rt: HostRuntime) -> Result<()> {
    let mut input = [0u8; 65536];
    let n = read_full(&mut rt.stdin(), &mut input)?;
    answer_all(&rt, &input[..n])
}
