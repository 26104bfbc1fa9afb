// Whole files and standard input, read into lent bytes, and bytes written to a file.
//
// The contracts name the bytes of a reader or a writer whose type tells them. What a file or standard input gives, no contract can say.
#![tactic(auto)]

ghost use Rattle.std.specs.Prelude.{◌≡◌, ◌≤◌, min, length, take, IsNone, IfSome};
ghost use Rattle.std.specs.Io.KnownBytes.{Consumes};
ghost use Rattle.bytes_io.specs.Prefix.{IsPrefixLen, file_bytes, front_bytes, TakesFrom, TookFrom};

use std::fs;
use std::io::{Read, Write};
use std::rt::Files;

// Reads until `bytes` is full, the input ends or a read fails. Returns how many bytes stand at the start of `bytes`: those that were taken from the input.
// A number, so that what `bytes` is afterwards can be said (d), as in `read_file` and `contents`; `taken` and `first_bytes` lend the bytes themselves.
pub fn read_full<R: Read>(from: &mut R, bytes: &mut [u8]) -> usize
    ensures in_bounds { IsPrefixLen result bytes.new }
    ensures taken { Consumes (R.remaining from.old) (R.remaining from.new) (take result bytes.new) }
{
    // No `for`: the place moves by what each read gives.
    let mut done = 0;
    while done < bytes.len() {
        match from.read(&mut bytes[done..]) {
            Ok(0) => return done,
            Ok(n) => done += n,
            Err(_) => return done,
        }
    }
    done
}

// The bytes that `read_full` takes from the input.
pub fn taken<'a, R: Read>(from: &mut R, bytes: &'a mut [u8]) -> &'a [u8]
    ensures in_bounds { length result.now ≤ length bytes.old }
    ensures taken { Consumes (R.remaining from.old) (R.remaining from.new) result.now }
{
    let n = read_full(from, bytes);
    &bytes[..n]
}

// Reads the file, if it is open, in the same way.
pub fn read_file<F: Read>(file: &mut Option<F>, bytes: &mut [u8]) -> Option<usize>
    ensures in_bounds { IfSome result (λ n. IsPrefixLen n bytes.new) }
    ensures taken { TakesFrom F.remaining file.old file.new (front_bytes result bytes.new) }
    ensures none { IsNone file.old → bytes.new ≡ bytes.old }
{
    let open = file.as_mut()?;
    Some(read_full(open, bytes))
}

// Reads the file, if it is open, in the same way, and closes it.
pub fn contents<F: Read + Drop>(file: Option<F>, bytes: &mut [u8]) -> Option<usize>
    ensures in_bounds { IfSome result (λ n. IsPrefixLen n bytes.new) }
    ensures taken { TookFrom F.remaining file (front_bytes result bytes.new) }
    ensures none { IsNone file → bytes.new ≡ bytes.old }
{
    let mut file = file;
    read_file(&mut file, bytes)
}

// The bytes that `contents` takes from the file, which is closed when they are lent.
pub fn first_bytes<'a, F: Read + Drop>(file: Option<F>, bytes: &'a mut [u8]) -> Option<&'a [u8]>
    ensures in_bounds { IfSome result (λ taken. length taken.now ≤ length bytes.old) }
    ensures taken { TookFrom F.remaining file (file_bytes result) }
{
    let n = contents(file, bytes)?;
    Some(&bytes[..n])
}

// So many, but no more than there are of `bytes`.
pub fn count(most: usize, bytes: &[u8]) -> usize
    ensures in_bounds { IsPrefixLen result bytes.now }
    ensures value { result ≡ min most (length bytes.now) }
{
    most.min(bytes.len())
}

// Writes the bytes to a file, if there are any; one that could not be written whole is removed.
pub fn keep(rt: &impl Files, path: &str, bytes: &[u8]) {
    if bytes.is_empty() {
        return;
    }
    if let Ok(mut file) = fs::create(rt, path) {
        if file.write_all(bytes).is_err() {
            let _ = fs::remove_file(rt, path);
        }
    }
}

#[cfg(test)]
mod tests {
    use super::{contents, count, first_bytes, read_file, read_full, taken};
    use std::io::{self, Error, ErrorKind, Read};

    // A byte at a time, so many, and then a read that fails.
    #[derive(Drop)]
    struct Failing {
        left: u8,
    }

    impl Read for Failing {
        fn read(&mut self, buf: &mut [u8]) -> io::Result<usize> {
            if self.left == 0 {
                return Err(Error::from(ErrorKind::Other));
            }
            if buf.is_empty() {
                return Ok(0);
            }
            buf[0] = self.left;
            self.left -= 1;
            Ok(1)
        }
    }

    #[test]
    fn until_full(rt: HostRuntime) {
        let mut from: &[u8] = b"abcde";
        let mut bytes = [0u8; 3];
        let n = read_full(&mut from, &mut bytes);
        assert!(rt; n == 3, "{n} bytes");
        assert!(rt; bytes[2] == b'c', "{bytes:?}");
        assert!(rt; from.len() == 2, "{from:?}");
    }

    #[test]
    fn until_the_end(rt: HostRuntime) {
        let mut from: &[u8] = b"ab";
        let mut bytes = [7u8; 4];
        let n = read_full(&mut from, &mut bytes);
        assert!(rt; n == 2, "{n} bytes");
        assert!(rt; bytes[2] == 7, "{bytes:?}");
    }

    // What was read before stands, and the failure is the end.
    #[test]
    fn until_a_failure(rt: HostRuntime) {
        let mut bytes = [0u8; 4];
        let n = read_file(&mut Some(Failing { left: 3 }), &mut bytes);
        assert!(rt; n == Some(3), "{n:?} bytes");
        assert!(rt; bytes[0] == 3, "{bytes:?}");
        assert!(rt; bytes[2] == 1, "{bytes:?}");
    }

    #[test]
    fn no_file(rt: HostRuntime) {
        let mut missing: Option<Failing> = None;
        let mut bytes = [7u8; 4];
        let n = read_file(&mut missing, &mut bytes);
        assert!(rt; n.is_none(), "{n:?} bytes");
        assert!(rt; bytes[0] == 7, "{bytes:?}");
        let most = count(9, &bytes);
        assert!(rt; most == 4, "{most}");
    }

    // The file is lent, and stands behind what was taken from it.
    #[test]
    fn file_after_its_start(rt: HostRuntime) {
        let mut file: Option<&[u8]> = Some(b"abcde");
        let mut bytes = [0u8; 2];
        let n = read_file(&mut file, &mut bytes);
        assert!(rt; n == Some(2), "{n:?} bytes");
        assert!(rt; bytes[1] == b'b', "{bytes:?}");
        assert!(rt; file == Some(b"cde".as_slice()), "{file:?}");
    }

    // The file is passed, and what was taken from it is lent.
    #[test]
    fn file_closed(rt: HostRuntime) {
        let mut bytes = [0u8; 2];
        let first = first_bytes(Some(b"abcde".as_slice()), &mut bytes);
        assert!(rt; first == Some(b"ab".as_slice()), "{first:?}");
        let missing: Option<Failing> = None;
        let n = contents(missing, &mut bytes);
        assert!(rt; n.is_none(), "{n:?} bytes");
        assert!(rt; bytes[0] == b'a', "{bytes:?}");
    }

    #[test]
    fn bytes_taken(rt: HostRuntime) {
        let mut from: &[u8] = b"abc";
        let mut bytes = [7u8; 9];
        let all = taken(&mut from, &mut bytes);
        assert!(rt; all == b"abc".as_slice(), "{all:?}");
    }
}
