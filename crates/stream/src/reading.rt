// A stream is read to the front of a buffer.
// What is promised holds of a reader whose bytes are known; of standard input and files it says how many bytes count.
ghost use Rattle.std.specs.Prelude.{◌<◌, length, take, IfOk};
ghost use Rattle.std.specs.Io.{ReadsAtMost};
ghost use Rattle.std.specs.Io.KnownBytes.{Consumes, IsAtEnd};

use std::io;
use std::io::Read;

// Reads until buf is full or the input ends, and answers how many bytes stand at the front of buf.
pub fn read_full<R: Read>(input: &mut R, buf: &mut [u8]) -> io::Result<usize>
    ensures within { ReadsAtMost result buf.new }
    ensures front { IfOk result (λ n. Consumes (R.remaining input.old) (R.remaining input.new) (take n buf.new)) }
    ensures ended { IfOk result (λ n. n < length buf.new → IsAtEnd (R.remaining input.new)) }
{
    let mut done = 0;
    while done < buf.len() {
        let got = input.read(&mut buf[done..])?;
        if got == 0 {
            break;
        }
        done += got;
    }
    Ok(done)
}

#[cfg(test)]
mod tests {
    use super::*;
    use std::io::{Error, ErrorKind};

    // Gives two bytes a read, and has nothing more behind its last read, or fails there.
    #[derive(Drop)]
    struct Drops {
        reads: u8,
        fails: bool,
    }

    impl Read for Drops {
        fn read(&mut self, buf: &mut [u8]) -> io::Result<usize> {
            if self.reads == 0 {
                return if self.fails {
                    Err(Error::from(ErrorKind::Other))
                } else {
                    Ok(0)
                };
            }
            self.reads -= 1;
            let mut pair: &[u8] = b"ab";
            pair.read(buf)
        }
    }

    #[test]
    fn reads_to_the_end(rt: HostRuntime) {
        let mut buf = [b'.'; 8];
        let mut input = Drops {
            reads: 3,
            fails: false,
        };
        assert_eq!(rt; read_full(&mut input, &mut buf).ok(), Some(6));
        assert_eq!(rt; buf, *b"ababab..");
    }

    #[test]
    fn reads_until_full(rt: HostRuntime) {
        let mut buf = [b'.'; 5];
        let mut input = Drops {
            reads: 4,
            fails: true,
        };
        assert_eq!(rt; read_full(&mut input, &mut buf).ok(), Some(5));
        assert_eq!(rt; buf, *b"ababa");
        assert_eq!(rt; input.reads, 1);
    }

    #[test]
    fn a_failed_read_fails(rt: HostRuntime) {
        let mut buf = [b'.'; 8];
        let mut input = Drops {
            reads: 2,
            fails: true,
        };
        assert!(rt; read_full(&mut input, &mut buf).is_err());
    }
}
