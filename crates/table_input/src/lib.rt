// What the programs `check`, `show` and `why` read their table with.
#![tactic(auto)]

ghost use Rattle.std.specs.Prelude.{◌<◌, length, take, IfOk};
ghost use Rattle.std.specs.Io.{ReadsAtMost};
ghost use Rattle.std.specs.Io.KnownBytes.{Consumes, IsAtEnd};

use std::io;
use std::io::Read;

// Reads until the buffer is full or the input ends, and returns how many bytes it put at the buffer's start.
pub fn read_full<R: Read>(from: &mut R, out: &mut [u8]) -> io::Result<usize>
    ensures bound { ReadsAtMost result out.new }
    ensures bytes { IfOk result (λ n. Consumes (R.remaining from.old) (R.remaining from.new) (take n out.new)) }
    ensures end { IfOk result (λ n. n < length out.new → IsAtEnd (R.remaining from.new)) }
{
    let mut done = 0;
    // a `while`: a read gives as many bytes as it likes, until the input ends or the buffer is full
    while done < out.len() {
        let n = from.read(&mut out[done..])?;
        if n == 0 {
            break;
        }
        done += n;
    }
    Ok(done)
}

#[cfg(test)]
mod tests {
    use super::*;
    use std::test::Fail;

    #[test]
    fn short_reads_are_joined(rt: HostRuntime) -> Result<(), Fail> {
        let first: &[u8] = b"ab";
        let second: &[u8] = b"cde";
        let mut out = [9u8; 8];
        assert_eq!(rt; read_full(&mut first.chain(second), &mut out)?, 5);
        assert_eq!(rt; out.as_slice(), b"abcde\x09\x09\x09".as_slice());
        Ok(())
    }

    #[test]
    fn a_longer_input_fills_the_buffer(rt: HostRuntime) -> Result<(), Fail> {
        let mut input: &[u8] = b"abcde";
        let mut out = [9u8; 4];
        assert_eq!(rt; read_full(&mut input, &mut out)?, 4);
        assert_eq!(rt; out.as_slice(), b"abcd".as_slice());
        assert_eq!(rt; input, b"e".as_slice());
        Ok(())
    }

    // Gives one byte, then fails.
    #[derive(Drop)]
    struct Failing {
        is_read: bool,
    }

    impl Read for Failing {
        fn read(&mut self, buf: &mut [u8]) -> io::Result<usize> {
            if self.is_read || buf.is_empty() {
                return Err(io::Error::from(io::ErrorKind::Other));
            }
            self.is_read = true;
            buf[0] = 7;
            Ok(1)
        }
    }

    #[test]
    fn a_failed_read_is_told(rt: HostRuntime) {
        let mut input = Failing { is_read: false };
        let mut out = [9u8; 4];
        assert!(rt; read_full(&mut input, &mut out).is_err());
    }
}
