//! Reports of rows, many times over, at a size that a line asks for. A clock outside times them.
//!
//! A line is how many transactions a report has, and how many times it is made. What is written back is
//! the line, and how many lines of text the reports have in all.
#![tactic(auto)]

mod fills;

use recon_report::report;
use std::alloc::Global;
use std::io;
use upi_base::NoMemory;

/// What a line asks for.
#[derive(Clone, Copy)]
struct Task {
    size: u32,
    turns: u32,
}

fn asked(line: &str) -> Option<Task> {
    let mut words = line.split_whitespace();
    let size = words.next()?.parse::<u32>().ok()?;
    let turns = words.next()?.parse::<u32>().ok()?;
    Some(Task { size, turns })
}

// How many lines a text has.
fn lines(text: &[u8]) -> u64 {
    let mut count = 0u64;
    for c in text {
        if *c == b'\n' {
            count = count.saturating_add(1);
        }
    }
    count
}

// Makes the report of so many rows, so many times. How many lines they have in all.
fn report_all(alloc: Global, task: &Task) -> Result<u64, NoMemory> {
    let directory = fills::directory(alloc)?;
    let rows = fills::rows(alloc, task.size)?;
    let balances = fills::balances(alloc)?;
    let mut count = 0u64;
    for _turn in 0..task.turns {
        let text = report(alloc, &directory, &rows, &balances, 0)?;
        count = count.saturating_add(lines(&text));
    }
    Ok(count)
}

fn main(rt: HostRuntime) -> io::Result<()> {
    for line in rt.lines(rt.alloc()) {
        let line = line?;
        let Some(task) = asked(line.as_str()) else {
            println!(rt; "{line} ?")?;
            continue;
        };
        match report_all(rt.alloc(), &task) {
            Ok(count) => println!(rt; "{line} {count}")?,
            Err(_) => println!(rt; "{line} no memory")?,
        }
    }
    Ok(())
}
