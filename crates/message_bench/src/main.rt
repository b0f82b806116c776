//! Reads and writes each message of its input so many times: two numbers, how often it reads and how
//! often it writes each line's message, once at least. It prints the message as it was written, or
//! the path to its fault. `bench/messages.sh` times it.
#![tactic(auto)]

ghost use Rattle.std.specs.Prelude.{◌≡◌, IfOk};
ghost use Rattle.upi_msg.specs.Read.{input_of};
ghost use Rattle.upi_msg.specs.Tree.{message_text};

use anyhow::{Result, bail};
use std::alloc::Global;
use std::{env, str};
use upi_base::{Input, Message, NoMemory};
use upi_msg::{Reader, text};

// What a text says, read so many times.
fn read_often(reader: &mut Reader, json: &[u8], times: u64) -> Result<Input, NoMemory>
    ensures { IfOk result (λ i. i ≡ input_of json.now) }
{
    for _ in 1..times {
        reader.read(json)?;
    }
    reader.read(json)
}

// The text of a message, written so many times.
fn write_often(alloc: Global, message: &Message, times: u64) -> Result<Vec<u8>, NoMemory>
    ensures { IfOk result (λ v. v.items ≡ message_text message.now) }
{
    let mut out = Vec::new(alloc);
    for _ in 1..times {
        text(alloc, message, &mut out)?;
        out.clear();
    }
    out.clear();
    text(alloc, message, &mut out)?;
    Ok(out)
}

// What is printed for a line.
fn line_text(
    alloc: Global,
    reader: &mut Reader,
    line: &[u8],
    reads: u64,
    writes: u64,
) -> Result<Vec<u8>, NoMemory> {
    match read_often(reader, line, reads)? {
        Input::Good(message) => write_often(alloc, &message, writes),
        Input::Bad(bad) => Ok(Vec::from_slice(alloc, bad.path.bytes())?),
    }
}

fn main(rt: HostRuntime) -> Result<()> {
    let alloc = rt.alloc();
    let mut args = env::args(&rt)?;
    let _ = args.next();
    let (Some(reads), Some(writes)) = (args.next(), args.next()) else {
        bail!("two numbers are needed: how often to read, and how often to write");
    };
    let (reads, writes) = (reads.parse::<u64>()?, writes.parse::<u64>()?);
    let mut reader = Reader::new(alloc);
    for line in rt.lines(alloc) {
        let Ok(out) = line_text(alloc, &mut reader, line?.as_bytes(), reads, writes) else {
            bail!("out of memory");
        };
        println!(rt; "{}", str::from_utf8(&out)?)?;
    }
    Ok(())
}
