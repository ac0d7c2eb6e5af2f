// What no clause says: a reader and a writer that fail in mid-stream, and that each call can succeed.
use super::*;
use std::io;

// A reader of two bytes a call, which fails once they are all read.
#[derive(Drop)]
struct Failing {
    left: u8,
}

impl Read for Failing {
    fn read(&mut self, buf: &mut [u8]) -> io::Result<usize> {
        if self.left == 0 {
            return Err(io::Error::other("the disk is gone"));
        }
        if buf.len() < 2 {
            return Ok(0);
        }
        self.left -= 1;
        buf[0] = b'a';
        buf[1] = b'b';
        Ok(2)
    }
}

// The same number for each kind, and the count of the bytes.
fn code(input: Input) -> usize {
    match input {
        Input::Failed => 1000,
        Input::Ended => 1001,
        Input::Bytes(n) => n,
    }
}

#[test]
fn a_reader_that_ends(rt: HostRuntime) {
    let mut from: &[u8] = b"abcde";
    let mut buf = [b'-'; 4];
    assert_eq!(rt; code(fill(&mut from, &mut buf, 1)), 4);
    assert_eq!(rt; buf, *b"-abc");
    assert_eq!(rt; code(fill(&mut from, &mut buf, 4)), 1001, "no room");
    assert_eq!(rt; code(fill(&mut from, &mut buf, 0)), 2);
    assert_eq!(rt; buf, *b"debc");
    assert_eq!(rt; code(fill(&mut from, &mut buf, 2)), 1001);
    assert_eq!(rt; buf, *b"debc");
}

#[test]
fn a_reader_that_fails(rt: HostRuntime) {
    let mut from = Failing { left: 1 };
    let mut buf = [b'-'; 4];
    assert_eq!(rt; code(fill(&mut from, &mut buf, 1)), 3);
    assert_eq!(rt; code(fill(&mut from, &mut buf, 1)), 1000);
    assert_eq!(rt; buf, *b"-ab-");
}

#[test]
fn a_writer_that_is_full(rt: HostRuntime) {
    let mut room = [b'-'; 5];
    let mut told = [b'-'; 5];
    let mut streams = Streams {
        input: (),
        output: &mut room[..],
        errors: &mut told[..],
    };
    assert!(rt; write_or_tell(&mut streams, b"abc", b"full"));
    assert!(rt; !write_or_tell(&mut streams, b"def", b"full"));
    assert!(rt; write_or_tell(&mut streams, b"", b"none"));
    assert_eq!(rt; room, *b"abcde");
    assert_eq!(rt; told, *b"full-");
}

#[test]
fn lent_buffers(rt: HostRuntime) {
    assert_eq!(rt; buffer().len(), 4096);
    assert_eq!(rt; large_buffer().len(), 65536);
    let mut said = [b'-'; 3];
    tell(&mut &mut said[..], b"X 16\n");
    assert_eq!(rt; said, *b"X 1");
}
