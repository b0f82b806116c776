use super::*;
use std::alloc::Global;
use std::test::Fail;
use upi_io::Words;

// The words that single spaces part.
fn words(alloc: Global, line: &str) -> Result<Words, Fail> {
    let mut list = Vec::new(alloc);
    for word in line.split(' ') {
        list.push(String::from_str(alloc, word)?)?;
    }
    Ok(Words::of(list))
}

// Forms that no command has.
const NONE: [&str; 24] = [
    "",
    " ",
    "Script",
    "script ",
    "script x",
    "audit 1 1",
    "audit -",
    "gen",
    "gen 1",
    "gen 1 1 1",
    "gen 0 1",
    "gen 50001 1",
    "gen 1 2147483648",
    "gen +1 1",
    "gen 1 -1",
    "gen 1 1x",
    "gen  1",
    "gen 00000000001 1",
    "load 1",
    "load 50001 0",
    "-- gen 1 1",
    "gen --count=1 1",
    "script --help",
    "LOAD 1 1",
];

#[test]
fn other_words(rt: HostRuntime) -> Result<(), Fail> {
    for line in NONE {
        let asked = words(rt.alloc(), line)?;
        assert!(rt; command_of(&asked).is_none(), "{line}");
    }
    Ok(())
}

#[test]
fn commands(rt: HostRuntime) -> Result<(), Fail> {
    let least = LoadSize { count: 1, seed: 0 };
    let most = LoadSize {
        count: 50_000,
        seed: 2_147_483_647,
    };
    let asked = [
        ("script", Command::Script),
        ("audit", Command::Audit),
        ("gen 1 0", Command::Generate(least)),
        ("gen 0000000001 0000000000", Command::Generate(least)),
        ("load 50000 2147483647", Command::Load(most)),
    ];
    for (line, command) in asked {
        assert!(rt;
            command_of(&words(rt.alloc(), line)?) == Some(command),
            "{line}"
        );
    }
    Ok(())
}
