// When the text of a script goes out: in pieces, and before the source is asked for more.
ghost use Rattle.std.specs.Prelude.{◌<◌, ◌≤◌, None, length};

use super::*;
use std::cell::Cell;
use upi_io::{ReadAnswer, Sink, Source, WriteAnswer};

// What comes at a read, and what is written for the lines that end there.
type Typed = (&'static str, &'static str);

// A source that somebody types into. At each read it notes whether all was written that is due then.
#[derive(Drop)]
struct Keyboard<'a> {
    typed: &'static [Typed],
    place: usize,
    due: usize,
    written: &'a Cell<usize>,
    is_late: bool,
    ended: bool,
}

impl Source for Keyboard<'_> {
    ghost left = { λ _. None };

    ghost ended = { λ s. s.ended };

    ghost faults = { λ _. 0 };

    fn read(&mut self, buf: &mut [u8]) -> ReadAnswer {
        if self.written.get() != self.due {
            self.is_late = true;
        }
        match self.typed.get(self.place) {
            Some((line, text)) => {
                self.place = self.place.saturating_add(1);
                self.due = self.due.saturating_add(text.len());
                ReadAnswer::Got(give(line.as_bytes(), buf))
            }
            None => {
                self.ended = true;
                ReadAnswer::End
            }
        }
    }
}

// Copies bytes into a buffer that has room for them, and answers how many.
fn give(bytes: &[u8], buf: &mut [u8]) -> usize
    requires { 0 < length buf.old }
    ensures least { 0 < result }
    ensures most { result ≤ length buf.old }
{
    let count = bytes.len().min(buf.len());
    let (front, _) = buf.split_at_mut(count);
    front.copy_from_slice(&bytes[..count]);
    count.max(1)
}

// A sink that counts the bytes of all writes and of each of the first four.
#[derive(Drop)]
struct Screen<'a> {
    written: &'a Cell<usize>,
    pieces: [usize; 4],
    count: usize,
}

impl Sink for Screen<'_> {
    ghost taken = { λ _. None };

    ghost faults = { λ _. 0 };

    fn write(&mut self, bytes: &[u8]) -> WriteAnswer {
        self.written
            .set(self.written.get().saturating_add(bytes.len()));
        if let Some(piece) = self.pieces.get_mut(self.count) {
            *piece = bytes.len();
        }
        self.count = self.count.saturating_add(1);
        WriteAnswer::Took(bytes.len())
    }
}

// The word `script`.
fn script_word(alloc: Global) -> Result<Words, Fail> {
    let mut list = Vec::new(alloc);
    list.push(String::from_str(alloc, "script")?)?;
    Ok(Words::of(list))
}

// A session, typed line by line, with a line in two parts and three lines at once.
const SESSION: [Typed; 9] = [
    (START, START),
    ("BANK AAAA\n", "BANK AAAA\n"),
    ("# nothing\n", ""),
    ("OPEN\n", "OPEN\n"),
    ("DELIVER 9\n", "# NOMSG 9 0\n"),
    ("LOSE", ""),
    (" 5\nDEL", "# NOMSG 5 0\n"),
    ("IVER 12\nTICK 5\nLOSE 7\n", "# NOMSG 12 0\n# NOMSG 7 0\n"),
    ("CLOSE\n", "E 1 0 1704067205 CLOSE = CLOSED\n"),
];

// What is written for the end of it.
const SESSION_END: &str =
    "REPORT\nrow,id,bank,detail,amount,code\nNET,,AAAA,,0.00,\nFLIGHT,,,,0.00,\n";

#[test]
fn each_answer_is_there_before_the_next_read(rt: HostRuntime) -> Result<(), Fail> {
    let alloc = rt.alloc();
    let written = Cell::new(0);
    let mut keyboard = Keyboard {
        typed: &SESSION,
        place: 0,
        due: 0,
        written: &written,
        is_late: false,
        ended: false,
    };
    let mut screen = Screen {
        written: &written,
        pieces: [0; 4],
        count: 0,
    };
    let hashes = RandomState::new(&SameKeys)?;
    let words = script_word(alloc)?;
    let status = run(alloc, hashes, &words, &mut keyboard, &mut screen);
    assert_eq!(rt; status, Status::Done);
    assert!(rt; !keyboard.is_late);
    assert_eq!(rt; keyboard.place, SESSION.len());
    assert_eq!(rt;
        written.get(),
        keyboard.due.saturating_add(SESSION_END.len())
    );
    Ok(())
}

// How many bytes each of the first four writes has, of a script that comes at one read: setup lines, which
// write 37 bytes, then 6,000 lines that write 12 bytes each, and a line that is no command.
fn pieces_of_a_long_script(alloc: Global) -> Result<(Status, [usize; 4]), Fail> {
    let mut input = joined(alloc, &[START, "OPEN\n"])?;
    for _ in 0..6000 {
        input.extend_from_slice(b"DELIVER 9\n")?;
    }
    input.extend_from_slice(b"STOP\n")?;
    let mut source = MemSource::new(input, 1_000_000, Vec::new(alloc));
    let written = Cell::new(0);
    let mut screen = Screen {
        written: &written,
        pieces: [0; 4],
        count: 0,
    };
    let hashes = RandomState::new(&SameKeys)?;
    let words = script_word(alloc)?;
    let status = run(alloc, hashes, &words, &mut source, &mut screen);
    Ok((status, screen.pieces))
}

// The first 5,459 of these lines and the setup write 65,545 bytes, 9 more than a piece must have; the other
// 541 write 6,492, which go out before the line is refused.
#[test]
fn text_goes_out_in_pieces(rt: HostRuntime) -> Result<(), Fail> {
    let bad = Status::BadLine {
        line: 6003,
        field: 1,
        why: Why::Word,
    };
    let (status, pieces) = pieces_of_a_long_script(rt.alloc())?;
    assert_eq!(rt; status, bad);
    assert_eq!(rt; pieces, [65_545, 6_492, 0, 0]);
    Ok(())
}
