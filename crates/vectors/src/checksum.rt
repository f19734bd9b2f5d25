// The Adler-32 checksum of a file. It shows a change of the bytes of a message that no recorded field reads.
use crate::records;
use std::fs::Files;
use std::io::Read;
use std::{fs, io};

#[derive(Clone, Copy)]
struct Sum {
    a: u64,
    b: u64,
}

// The sum with some bytes more.
fn added(s: Sum, bytes: &[u8]) -> Sum {
    let mut a = s.a % 65521;
    let mut b = s.b % 65521;
    for byte in bytes {
        a = (a + u64::from(*byte)) % 65521;
        b = (b + a) % 65521;
    }
    Sum { a, b }
}

// A loop has to end, and nothing says that a file does: the sum of a longer file is that of its first million reads.
fn each<F: Read>(file: &mut F) -> io::Result<Sum> {
    let mut s = Sum { a: 1, b: 0 };
    for _ in 0..1000000 {
        let mut buf = [0u8; 4096];
        let n = records::read_full(file, &mut buf)?;
        if n == 0 {
            return Ok(s);
        }
        s = added(s, &buf[..n]);
    }
    Ok(s)
}

// 0 where the file cannot be opened, which is no checksum of any file: no Option, since 0 is what is printed then.
pub(crate) fn of_file<R: Files>(rt: &R, path: &str) -> io::Result<u64> {
    match fs::open(rt, path) {
        Err(_) => Ok(0),
        Ok(mut file) => {
            let s = each(&mut file)?;
            Ok(s.b % 65521 * 65536 + s.a % 65521)
        }
    }
}
