// What a program reads that is given one script.
#![tactic(auto)]

ghost use Rattle.std.specs.Prelude.{◌≡◌, ◌≢◌, ◌≤◌, IfErr, IfOk, IfSome, length, take, vec_len};
ghost use Rattle.std.specs.IoError.{error_kind};
ghost use Rattle.std.specs.declared.io.ErrorKind.TheVariants.{Interrupted};

use script::MOST_BYTES;
use std::alloc::Global;
use std::io;
use std::io::Read;

// Fills the buffer as far as the input goes, and answers how far. Each read asks for all that there is still room for, since an
// input of messages loses what is not asked for.
fn fill<R: Read>(input: &mut R, buffer: &mut [u8]) -> io::Result<usize>
    ensures few { IfOk result (λ n. n ≤ length buffer.new) }
    ensures bytes { IfOk result (λ n. IfSome (R.remaining input.old) (λ bytes. take n buffer.new ≡ take (length buffer.old) bytes)) }
{
    let mut n: usize = 0;
    while n < buffer.len() {
        let more = input.read(&mut buffer[n..])?;
        if more == 0 {
            break;
        }
        n += more;
    }
    Ok(n)
}

// All that is left of an input; of a longer one, one byte more than a script can have, so that it is refused and not cut.
// Where it isn't known which bytes an input gives, as for that of a program, this says how many there are at most. It makes room
// for the longest first, and an input may come in messages; a read that is interrupted is an error.
pub fn read_messages<R: Read + Drop>(heap: Global, mut input: R) -> io::Result<Vec<u8>>
    ensures few { IfOk result (λ text. vec_len text ≤ 16385) }
    ensures bytes { IfOk result (λ text. IfSome (R.remaining input) (λ bytes. text.items ≡ take 16385 bytes)) }
{
    let mut text = vec![in heap; 0; MOST_BYTES + 1]?;
    let n = fill(&mut input, text.as_mut_slice())?;
    text.truncate(n);
    Ok(text)
}

// The same of an input that comes in no messages. It makes room as the bytes come, and reads again where a read is interrupted.
pub fn read<R: Read + Drop>(heap: Global, input: R) -> io::Result<Vec<u8>>
    ensures few { IfOk result (λ text. vec_len text ≤ 16385) }
    ensures bytes { IfOk result (λ text. IfSome (R.remaining input) (λ bytes. text.items ≡ take 16385 bytes)) }
    ensures retried { IfErr result (λ e. error_kind e ≢ Interrupted) }
{
    let mut text = Vec::new(heap);
    input.take(MOST_BYTES as u64 + 1).read_to_end(&mut text)?;
    text.truncate(MOST_BYTES + 1);
    Ok(text)
}

#[cfg(test)]
mod tests {
    use super::*;
    use std::test::Fail;

    // Gives five bytes a read at most, and notes for how many the first read asked, and the last.
    #[derive(Drop)]
    struct Pieces {
        left: &'static [u8],
        first: Option<usize>,
        last: usize,
    }

    impl Read for Pieces {
        fn read(&mut self, buf: &mut [u8]) -> io::Result<usize> {
            self.first = self.first.or(Some(buf.len()));
            self.last = buf.len();
            let n = self.left.len().min(buf.len()).min(5);
            buf[..n].copy_from_slice(&self.left[..n]);
            self.left = &self.left[n..];
            Ok(n)
        }
    }

    // A text comes whole; a longer one with one byte more than a script can have.
    #[test]
    fn reads(rt: HostRuntime) -> Result<(), Fail> {
        let text: &[u8] = b"var,x,1\nrun,x\n";
        assert!(rt; read(rt.alloc(), text)?.as_slice() == text);
        assert!(rt; read_messages(rt.alloc(), text)?.as_slice() == text);
        let long: &[u8] = &[b'a'; 16400];
        assert_eq!(rt; read(rt.alloc(), long)?.len(), 16385);
        assert_eq!(rt; read_messages(rt.alloc(), long)?.len(), 16385);
        Ok(())
    }

    // A text of 14 bytes comes in four reads, the last of which gives none; each asks for all the room that is left.
    #[test]
    fn reads_in_pieces(rt: HostRuntime) -> Result<(), Fail> {
        let text: &[u8] = b"var,x,1\nrun,x\n";
        let mut pieces = Pieces {
            left: text,
            first: None,
            last: 0,
        };
        assert!(rt; read_messages(rt.alloc(), &mut pieces)?.as_slice() == text);
        assert_eq!(rt; pieces.first, Some(16385));
        assert_eq!(rt; pieces.last, 16371);
        Ok(())
    }

    // Is interrupted once, and then gives what there is.
    #[derive(Drop)]
    struct Interrupted {
        left: &'static [u8],
        yet: bool,
    }

    impl Read for Interrupted {
        fn read(&mut self, buf: &mut [u8]) -> io::Result<usize> {
            if self.yet {
                self.yet = false;
                return Err(io::Error::from(io::ErrorKind::Interrupted));
            }
            self.left.read(buf)
        }
    }

    // A read that is interrupted is done again.
    #[test]
    fn reads_again(rt: HostRuntime) -> Result<(), Fail> {
        let text: &[u8] = b"var,x,1\nrun,x\n";
        let input = Interrupted {
            left: text,
            yet: true,
        };
        assert!(rt; read(rt.alloc(), input)?.as_slice() == text);
        Ok(())
    }
}
