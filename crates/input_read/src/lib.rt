// What a program reads: an input's bytes, in a lent buffer.
#![tactic(auto)]

ghost use Rattle.std.specs.Prelude.{◌<◌, ◌≤◌, length, take, IfOk};
ghost use Rattle.std.specs.Io.KnownBytes.{Consumes, IsAtEnd};

use std::io;
use std::io::Read;

// Reads until the buffer is full or the input ends, and gives how many bytes stand at its start. Where the input's bytes are known, these are its first;
// where the buffer is not full, none is left.
pub fn read_full<R: Read>(input: &mut R, buf: &mut [u8]) -> io::Result<usize>
    ensures within { IfOk result (λ n. n ≤ length buf.new) }
    ensures bytes { IfOk result (λ n. Consumes (R.remaining input.old) (R.remaining input.new) (take n buf.new)) }
    ensures end { IfOk result (λ n. n < length buf.new → IsAtEnd (R.remaining input.new)) }
{
    let mut done = 0;
    while done < buf.len() {
        match input.read(&mut buf[done..])? {
            0 => break,
            n => done += n,
        }
    }
    Ok(done)
}

#[cfg(test)]
mod tests {
    use super::*;
    use std::test::Fail;

    // A reader that gives one byte at a time, and fails where no more are left.
    #[derive(Drop)]
    struct Broken<'a>(&'a [u8]);

    impl Read for Broken<'_> {
        fn read(&mut self, buf: &mut [u8]) -> io::Result<usize> {
            match self.0.split_first() {
                Some((first, others)) => {
                    if buf.is_empty() {
                        return Ok(0);
                    }
                    buf[0] = *first;
                    self.0 = others;
                    Ok(1)
                }
                None => Err(io::Error::other("broken")),
            }
        }
    }

    #[test]
    fn stops_where_the_input_ends(rt: HostRuntime) -> Result<(), Fail> {
        let mut input: &[u8] = b"chart";
        let mut buf = [0u8; 3];
        assert_eq!(rt; read_full(&mut input, &mut buf)?, 3);
        assert_eq!(rt; &buf, b"cha");
        assert_eq!(rt; read_full(&mut input, &mut buf)?, 2);
        assert_eq!(rt; &buf, b"rta");
        assert_eq!(rt; read_full(&mut input, &mut buf)?, 0);
        Ok(())
    }

    #[test]
    fn passes_an_error_on(rt: HostRuntime) -> Result<(), Fail> {
        let mut input = Broken(b"chart");
        let mut buf = [0u8; 3];
        assert_eq!(rt; read_full(&mut input, &mut buf)?, 3);
        assert!(rt; read_full(&mut input, &mut buf).is_err());
        Ok(())
    }
}
