//! Sessions over memory and over devices that fail.

use crate::expect::{expect_bytes, expect_count};
use crate::pieces::Pieces;
use gtp_core::{GtpEnd, MAX_LINE, run_gtp};
use std::alloc::Global;
use std::io;
use std::io::{ErrorKind, Write};
use std::process::Abort;

// Takes a fixed number of bytes, and then fails. It counts how often it was flushed.
#[derive(Drop)]
struct Full {
    room: usize,
    flushed: usize,
}

impl Write for Full {
    ghost contents = { λ w. None };

    ghost use Rattle.std.specs.Prelude.{None};

    fn write(&mut self, buf: &[u8]) -> io::Result<usize> {
        if self.room == 0 {
            return Err(io::Error::from(ErrorKind::Other));
        }
        let count = buf.len().min(self.room);
        self.room -= count;
        Ok(count)
    }

    fn flush(&mut self) -> io::Result<()> {
        self.flushed = self.flushed.saturating_add(1);
        Ok(())
    }
}

fn expect_end(rt: &impl Abort, found: Result<(), GtpEnd>, wanted: Result<(), GtpEnd>) {
    assert_eq!(rt; found, wanted);
}

// Expects the session to write these replies for this input, however the input is cut.
fn answers(rt: &impl Abort, alloc: Global, input: &[u8], wanted: &str) {
    for piece in [1, 2, 7, 4_096] {
        let mut reader = Pieces {
            left: input,
            piece,
            fails: false,
        };
        let mut writer = Vec::new(alloc);
        expect_end(rt, run_gtp(alloc, &mut reader, &mut writer), Ok(()));
        expect_bytes(rt, writer.as_slice(), wanted.as_bytes());
    }
}

#[test]
fn refusals_with_ids(rt: HostRuntime) {
    answers(
        &rt,
        rt.alloc(),
        b"# hello\n\n7 boardsize 20\n8 undo\n9 nosuch\n10 protocol_version\nboardsize 26\n",
        "=7\n\n?8 cannot undo\n\n?9 unknown command\n\n=10 2\n\n? unacceptable size\n\n",
    );
}

const LETTERS: &str = "ABCDEFGHJKLMNOPQRSTUVWXYZ";

fn add(rt: &impl Abort, text: &mut String, part: &str) {
    text.push_str(part).expect(rt, "memory");
}

// Adds the commands for one stone at a vertex of the board that is taken back again.
fn add_stone(rt: &impl Abort, input: &mut String, column: usize, row: usize) {
    let letter = LETTERS.as_bytes().get(column).expect(rt, "a column");
    add(rt, input, "play w ");
    input.push(char::from(*letter)).expect(rt, "memory");
    let number = format!(in *input.allocator(); "{row}\nundo\n").expect(rt, "memory");
    add(rt, input, number.as_str());
}

#[test]
fn a_stone_at_every_vertex_of_every_board(rt: HostRuntime) {
    for rows in 2..26usize {
        let mut input = format!(in rt.alloc(); "boardsize {rows}\n").expect(&rt, "memory");
        let mut wanted = String::new(rt.alloc());
        add(&rt, &mut wanted, "=\n\n");
        for row in 1..rows + 1 {
            for column in 0..rows {
                add_stone(&rt, &mut input, column, row);
                add(&rt, &mut wanted, "=\n\n=\n\n");
            }
        }
        answers(&rt, rt.alloc(), input.as_bytes(), wanted.as_str());
    }
}

#[test]
fn words_that_do_not_read(rt: HostRuntime) {
    answers(
        &rt,
        rt.alloc(),
        b"1\nplay\nplay b\nplay x a1\nplay b i1\nplay b b0\nplay b a26\nplay b z25\nboardsize\nboardsize x\nboardsize 0\nboardsize 2147483648\nboardsize 300\nkomi\nkomi six\nknown_command\ngenmove\ngenmove grey\ntsu-solve\ntsu-solve q\ntsu-within\ntsu-within x\ntsu-within 201\n",
        "?1 syntax error\n\n? syntax error\n\n? syntax error\n\n? syntax error\n\n? syntax error\n\n? syntax error\n\n? syntax error\n\n? illegal move\n\n? syntax error\n\n? syntax error\n\n? unacceptable size\n\n? syntax error\n\n? unacceptable size\n\n? syntax error\n\n=\n\n? syntax error\n\n? syntax error\n\n? syntax error\n\n? syntax error\n\n? syntax error\n\n? syntax error\n\n? syntax error\n\n? syntax error\n\n",
    );
}

// A line of this many bytes, and then another.
fn long_line(rt: &impl Abort, alloc: Global, length: usize, wanted: &str) {
    let mut input = Vec::new(alloc);
    input.extend_from_slice(b"name #").expect(rt, "memory");
    for _ in input.len()..length {
        input.push(b'x').expect(rt, "memory");
    }
    input.extend_from_slice(b"\nname\n").expect(rt, "memory");
    answers(rt, alloc, input.as_slice(), wanted);
}

#[test]
fn lines_that_are_too_long(rt: HostRuntime) {
    let alloc = rt.alloc();
    long_line(&rt, alloc, MAX_LINE, "= tsumego\n\n= tsumego\n\n");
    long_line(&rt, alloc, MAX_LINE + 1, "? syntax error\n\n= tsumego\n\n");
    long_line(&rt, alloc, 3 * MAX_LINE, "? syntax error\n\n= tsumego\n\n");
}

#[test]
fn a_thousand_plays_and_undos(rt: HostRuntime) {
    let alloc = rt.alloc();
    let mut input = Vec::new(alloc);
    let mut wanted = String::new(alloc);
    for _ in 0..1_000 {
        input
            .extend_from_slice(b"play b a1\nplay b a1\nplay w pass\nundo\nundo\n")
            .expect(&rt, "memory");
        wanted
            .push_str("=\n\n? illegal move\n\n=\n\n=\n\n=\n\n")
            .expect(&rt, "memory");
    }
    input.extend_from_slice(b"undo\n").expect(&rt, "memory");
    wanted.push_str("? cannot undo\n\n").expect(&rt, "memory");
    answers(&rt, alloc, input.as_slice(), wanted.as_str());
}

#[test]
fn a_reader_that_fails(rt: HostRuntime) {
    let alloc = rt.alloc();
    let mut reader = Pieces {
        left: b"name\nversion",
        piece: 3,
        fails: true,
    };
    let mut writer = Vec::new(alloc);
    expect_end(
        &rt,
        run_gtp(alloc, &mut reader, &mut writer),
        Err(GtpEnd::Read),
    );
    expect_bytes(&rt, writer.as_slice(), b"= tsumego\n\n");
}

#[test]
fn a_writer_that_fails(rt: HostRuntime) {
    let alloc = rt.alloc();
    for room in 0..22 {
        let mut reader = b"name\nname\n".as_slice();
        let mut writer = Full { room, flushed: 0 };
        let end = run_gtp(alloc, &mut reader, &mut writer);
        expect_end(&rt, end, Err(GtpEnd::Write));
        expect_count(&rt, writer.flushed, room / 11);
    }
    let mut reader = b"name\n\n# x\nname\n".as_slice();
    let mut writer = Full {
        room: 22,
        flushed: 0,
    };
    expect_end(&rt, run_gtp(alloc, &mut reader, &mut writer), Ok(()));
    expect_count(&rt, writer.flushed, 2);
}
