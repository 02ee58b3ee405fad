// What the reader and the writer of a frame share (appendix A, <envelope>): the check character.
ghost use Rattle.std.specs.Prelude.{◌≡◌};
ghost use Rattle.envelope.specs.Frame.{check_of};

// The check character of some bytes: the exclusive or of them all.
pub fn check(s: &[u8]) -> u8
    ensures { result ≡ check_of s.now }
{
    s.iter().fold(0, |x, b| x ^ *b)
}
