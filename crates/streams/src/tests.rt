// What no contract says: the words that are told, what a failed read leaves, and the system's own streams once each.
use crate::{
    Output, Outputs, Terminal, argument, argument_count, decimal, fail, open, print_decimal,
    read_full, write_all,
};
use std::cell::Cell;
use std::io;
use std::io::{Error, ErrorKind, Read};

const ROOM: usize = 64;

// What was written to standard error, without a heap; standard output takes nothing.
#[derive(Drop)]
struct Heard {
    text: Cell<[u8; ROOM]>,
    len: Cell<usize>,
}

impl Outputs for Heard {
    fn write_bytes(&self, to: Output, bytes: &[u8]) -> io::Result<()> {
        if to == Output::Standard {
            return Err(Error::from(ErrorKind::BrokenPipe));
        }
        let mut text = self.text.get();
        let mut len = self.len.get();
        for b in bytes {
            if len >= ROOM {
                return Err(Error::from(ErrorKind::WriteZero));
            }
            text[len] = *b;
            len += 1;
        }
        self.text.set(text);
        self.len.set(len);
        Ok(())
    }
}

// Gives one byte a call, so many of them, and then fails.
#[derive(Drop)]
struct Breaks {
    left: u8,
}

impl Read for Breaks {
    fn read(&mut self, buf: &mut [u8]) -> io::Result<usize> {
        if self.left == 0 {
            return Err(Error::from(ErrorKind::Other));
        }
        if buf.len() == 0 {
            return Ok(0);
        }
        self.left -= 1;
        buf[0] = b'a';
        Ok(1)
    }
}

// Whether what a call tells of an error is this line.
fn tells(what: &[u8], error: Error, line: &[u8]) -> bool {
    let heard = Heard {
        text: Cell::new([0; ROOM]),
        len: Cell::new(0),
    };
    fail(&heard, what, error);
    let text = heard.text.get();
    let len = heard.len.get();
    len <= ROOM && &text[..len] == line
}

#[test]
fn tells_the_systems_words(rt: HostRuntime) {
    match open(&rt, b"no/such/file") {
        Ok(_) => assert!(rt; false, "a file that is not there was opened"),
        Err(e) => {
            assert!(rt; tells(b"a.nt", e, b"a.nt: No such file or directory\n"));
        }
    }
    match open(&rt, b"\xfc.nt") {
        Ok(_) => assert!(rt; false, "a name that is no text was opened"),
        Err(e) => {
            let line = b": Invalid or incomplete multibyte or wide character\n";
            assert!(rt; tells(b"", e, line));
        }
    }
    let other = Error::new(ErrorKind::Other, "words (of a program)");
    assert!(rt; tells(b"b", other, b"b: words (of a program)\n"));
}

#[test]
fn reads_up_to_a_failure(rt: HostRuntime) {
    let mut buffer = [0u8; 5];
    assert_eq!(rt; read_full(&mut Breaks { left: 3 }, &mut buffer), 3);
    assert!(rt; buffer == *b"aaa\0\0");
    assert_eq!(rt; read_full(&mut Breaks { left: 9 }, &mut buffer), 5);
    let mut text: &[u8] = b"bc";
    assert_eq!(rt; read_full(&mut text, &mut buffer), 2);
    assert!(rt; buffer == *b"bcaaa");
}

#[test]
fn writes_numbers(rt: HostRuntime) {
    for (n, want) in [(0, 1), (9, 1), (10, 2), (18446744073709551615, 20)] {
        let mut digits = [0u8; 20];
        assert_eq!(rt; decimal(n, &mut digits), want, "at {n}");
    }
    let mut digits = [b'-'; 20];
    decimal(40960, &mut digits);
    assert!(rt; digits == *b"40960---------------");
}

#[test]
fn hears_arguments_and_writes(rt: HostRuntime) {
    let mut name = [0u8; 4096];
    let count = argument_count(&rt);
    assert!(rt; count > 0);
    assert!(rt; argument(&rt, 0, &mut name).is_ok());
    assert!(rt; argument(&rt, 0, &mut [0u8; 0]).is_err());
    match argument(&rt, count, &mut name) {
        Ok(_) => assert!(rt; false, "an argument past the last"),
        Err(e) => assert_eq!(rt; e.raw_os_error(), Some(22)),
    }
    assert!(rt; write_all(&rt, Output::Error, b""));
    assert!(rt; print_decimal(&rt, Output::Standard, 7));
    let _terminal = rt.is_terminal();
}
