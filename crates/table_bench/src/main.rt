//! Calls of the tables, many times over, at a size that a line asks for. A clock outside times them.
//!
//! A line is the name of a call, how many entries a table has, and in how many rounds each entry is
//! asked for. What is written back is the line, and how many calls gave what they must.
#![tactic(auto)]

mod fills;
mod tables;

use std::alloc::Global;
use std::hash::RandomState;
use std::io;
use tables::{Call, Tables};
use upi_base::{AccountRef, NoMemory, TxnId};
use vpa_directory::Directory;

/// What a line asks for.
#[derive(Drop)]
struct Task<'a> {
    call: &'a str,
    size: u32,
    turns: u32,
}

fn asked(line: &str) -> Option<Task<'_>> {
    let mut words = line.split_whitespace();
    let call = words.next()?;
    let size = words.next()?.parse::<u32>().ok()?;
    let turns = words.next()?.parse::<u32>().ok()?;
    Some(Task { call, size, turns })
}

fn call_named(name: &str) -> Option<Call> {
    match name {
        "get" => Some(Call::Get),
        "put_first" => Some(Call::PutFirst),
        "take" => Some(Call::Take),
        "post_first" => Some(Call::PostFirst),
        "post_again" => Some(Call::PostAgain),
        "set" => Some(Call::Set),
        "remove_set" => Some(Call::RemoveSet),
        "least" => Some(Call::Least),
        "due_one" => Some(Call::DueOne),
        "nothing" => Some(Call::Nothing),
        _ => None,
    }
}

// Asks one round: a call for each entry. How many gave what they must.
fn ask_round(
    tables: &mut Tables,
    call: Call,
    names: &[TxnId],
    accounts: &[AccountRef],
    turn: u32,
) -> u64 {
    let mut right = 0u64;
    for (at, (name, ac)) in names.iter().zip(accounts).enumerate() {
        if tables.ask(call, name, ac, tables::moment(at, turn)) {
            right = right.saturating_add(1);
        }
    }
    right
}

// Tables in which each transaction has an entry.
fn filled(
    alloc: Global,
    hashes: RandomState,
    names: &[TxnId],
    accounts: &[AccountRef],
) -> Result<Tables, NoMemory> {
    let mut tables = Tables::new(alloc, hashes, accounts)?;
    ask_round(&mut tables, Call::PutFirst, names, accounts, 0);
    ask_round(&mut tables, Call::PostFirst, names, accounts, 0);
    ask_round(&mut tables, Call::Set, names, accounts, 0);
    Ok(tables)
}

// Asks all rounds of the same tables.
fn ask_again(
    tables: &mut Tables,
    call: Call,
    names: &[TxnId],
    accounts: &[AccountRef],
    turns: u32,
) -> u64 {
    let mut right = 0u64;
    for turn in 0..turns {
        right = right.saturating_add(ask_round(tables, call, names, accounts, turn));
    }
    right
}

// Asks each round of new tables without entries.
fn ask_new(
    alloc: Global,
    hashes: RandomState,
    call: Call,
    names: &[TxnId],
    accounts: &[AccountRef],
    turns: u32,
) -> Result<u64, NoMemory> {
    let mut right = 0u64;
    for turn in 0..turns {
        let mut tables = Tables::new(alloc, hashes, accounts)?;
        right = right.saturating_add(ask_round(&mut tables, call, names, accounts, turn));
    }
    Ok(right)
}

// Asks all rounds. How many calls gave what they must.
fn ask_all(
    alloc: Global,
    hashes: RandomState,
    call: Call,
    size: u32,
    turns: u32,
) -> Result<u64, NoMemory> {
    let names = fills::names(alloc, size)?;
    let accounts = fills::accounts(alloc, size)?;
    if call.is_first() {
        return ask_new(alloc, hashes, call, &names, &accounts, turns);
    }
    let mut tables = filled(alloc, hashes, &names, &accounts)?;
    Ok(ask_again(&mut tables, call, &names, &accounts, turns))
}

// Gives a new directory all lines, in each round. How many it took.
fn add_all(alloc: Global, size: u32, turns: u32) -> Result<u64, NoMemory> {
    let lines = fills::lines(alloc, size)?;
    let mut right = 0u64;
    for _turn in 0..turns {
        let mut directory = Directory::new(alloc, fills::start()?);
        for line in &lines {
            if directory.add(line.copy()).is_ok() {
                right = right.saturating_add(1);
            }
        }
    }
    Ok(right)
}

// How many calls gave what they must, or none where there is no such call.
fn play(alloc: Global, hashes: RandomState, task: &Task) -> Result<Option<u64>, NoMemory> {
    if task.call == "add" {
        return Ok(Some(add_all(alloc, task.size, task.turns)?));
    }
    let Some(call) = call_named(task.call) else {
        return Ok(None);
    };
    Ok(Some(ask_all(alloc, hashes, call, task.size, task.turns)?))
}

fn main(rt: HostRuntime) -> io::Result<()> {
    for line in rt.lines(rt.alloc()) {
        let line = line?;
        let Some(task) = asked(line.as_str()) else {
            println!(rt; "{line} ?")?;
            continue;
        };
        match play(rt.alloc(), RandomState::new(&rt)?, &task) {
            Ok(Some(count)) => println!(rt; "{line} {count}")?,
            Ok(None) => println!(rt; "{line} ?")?,
            Err(_) => println!(rt; "{line} no memory")?,
        }
    }
    Ok(())
}
