// The lines of the printed sheet that are words and two numbers: its counts, or its refusal (document 01, "The printed sheet").
ghost use Rattle.std.specs.Prelude.{◌++◌};
ghost use Rattle.text.specs.Private.{Laid};
ghost use Rattle.text.specs.Marks.{lf};
ghost use Rattle.text.specs.Decimal.{decimal};
ghost use Rattle.sheet_lines.specs.Lines.{counts_line, refused_line};

use text::{put_byte, put_bytes, put_number};

// Two words, a number after each, and the line's end.
fn put_numbers(out: &mut [u8], at: usize, first: &[u8], a: usize, second: &[u8], b: usize) -> usize
    ensures { Laid out.old at (first.now ++ decimal a ++ second.now ++ decimal b ++ lf) out.new result }
{
    let n1 = put_bytes(out, at, first);
    let n2 = put_number(out, n1, a);
    let n3 = put_bytes(out, n2, second);
    let n4 = put_number(out, n3, b);
    put_byte(out, n4, b'\n')
}

// The first line, with the two counts.
pub fn put_counts(out: &mut [u8], at: usize, nodes: u8, links: u8) -> usize
    ensures { Laid out.old at (counts_line nodes links) out.new result }
{
    put_numbers(
        out,
        at,
        b"nodes ",
        nodes as usize,
        b" links ",
        links as usize,
    )
}

// The one line of a refused chart.
pub fn put_refused(out: &mut [u8], at: usize, number: u8, place: usize) -> usize
    ensures { Laid out.old at (refused_line number place) out.new result }
{
    put_numbers(out, at, b"refused ", number as usize, b" at ", place)
}
