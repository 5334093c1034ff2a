//! Words that spell a command, and words that spell none.

mod no_commands;

use crate::batch_words_tests::no_commands::NO_COMMANDS;
use crate::expected::{assert_at, assert_same};
use batch_words::{Command, Mult, Schedule, read_words};
use std::alloc::Global;
use std::process::Abort;

// Own, by hand, from the rules of the command grammar: words that spell `run` or `live`, and what
// they say.
static RUNS: [(&[&str], u32, Mult); 20] = [
    (&["run"], 4, Mult::Lanes),
    (&["run", "--workers", "1"], 1, Mult::Lanes),
    (&["run", "--workers", "9"], 9, Mult::Lanes),
    (&["run", "--workers", "10"], 10, Mult::Lanes),
    (&["run", "--workers", "16"], 16, Mult::Lanes),
    (&["run", "--workers=1"], 1, Mult::Lanes),
    (&["run", "--workers=16"], 16, Mult::Lanes),
    (&["run", "--mult", "plain"], 4, Mult::Plain),
    (&["run", "--mult", "karatsuba"], 4, Mult::Karatsuba),
    (&["run", "--mult", "lanes"], 4, Mult::Lanes),
    (&["run", "--mult=lanes"], 4, Mult::Lanes),
    (&["run", "--mult=plain", "--workers=1"], 1, Mult::Plain),
    (
        &["run", "--workers", "2", "--mult", "lanes"],
        2,
        Mult::Lanes,
    ),
    (
        &["run", "--mult", "karatsuba", "--workers=3"],
        3,
        Mult::Karatsuba,
    ),
    (
        &["run", "--workers=16", "--mult", "karatsuba"],
        16,
        Mult::Karatsuba,
    ),
    (&["live"], 4, Mult::Lanes),
    (&["live", "--workers", "1"], 1, Mult::Lanes),
    (&["live", "--workers=16"], 16, Mult::Lanes),
    (&["live", "--mult", "karatsuba"], 4, Mult::Karatsuba),
    (&["live", "--mult=lanes", "--workers", "9"], 9, Mult::Lanes),
];

// Own, by hand, from the same rules: words that spell a rehearsal, and its lanes.
static REHEARSALS: [(&[&str], &'static [u8]); 5] = [
    (&["rehearse", "-"], &[]),
    (&["rehearse", "0"], &[0]),
    (&["rehearse", "15,0"], &[15, 0]),
    (&["rehearse", "0,1,1,1,1"], &[0, 1, 1, 1, 1]),
    (&["rehearse", "9,10,15,0,7"], &[9, 10, 15, 0, 7]),
];

// Own, by hand, from the same rules: words that spell a demonstration, and its three numbers.
static DEMOS: [(&[&str], u64, u32, u32); 4] = [
    (&["demo", "0", "1", "1"], 0, 1, 1),
    (&["demo", "7", "2000", "8"], 7, 2_000, 8),
    (&["demo", "10", "65536", "16"], 10, 65_536, 16),
    (
        &["demo", "18446744073709551615", "9", "9"],
        18_446_744_073_709_551_615,
        9,
        9,
    ),
];

// Own, by hand, from the same rules: the words after `check` and `capsules`, and what they say.
static MULTS: [(&[&str], Mult); 6] = [
    (&[], Mult::Lanes),
    (&["--mult", "plain"], Mult::Plain),
    (&["--mult", "karatsuba"], Mult::Karatsuba),
    (&["--mult", "lanes"], Mult::Lanes),
    (&["--mult=lanes"], Mult::Lanes),
    (&["--mult=karatsuba"], Mult::Karatsuba),
];

// Own, by hand, from the same rules: the words after `check` for a result of `live`.
static LIVE_MULTS: [(&[&str], Mult); 5] = [
    (&["--live"], Mult::Lanes),
    (&["--live", "--mult", "plain"], Mult::Plain),
    (&["--mult", "karatsuba", "--live"], Mult::Karatsuba),
    (&["--live", "--mult=plain"], Mult::Plain),
    (&["--mult=karatsuba", "--live"], Mult::Karatsuba),
];

fn push_word(rt: &impl Abort, alloc: Global, words: &mut Vec<String>, word: &str) {
    let word = String::from_str(alloc, word).expect(rt, "memory");
    words.push(word).expect(rt, "memory");
}

// The command that these words spell.
fn command_of(rt: &impl Abort, alloc: Global, words: &[&str]) -> Option<Command> {
    let mut strings = Vec::new(alloc);
    for word in words {
        push_word(rt, alloc, &mut strings, word);
    }
    read_words(alloc, &strings).expect(rt, "memory")
}

// The command that a name spells with these words behind it.
fn command_with(rt: &impl Abort, alloc: Global, name: &str, words: &[&str]) -> Option<Command> {
    let mut strings = Vec::new(alloc);
    push_word(rt, alloc, &mut strings, name);
    for word in words {
        push_word(rt, alloc, &mut strings, word);
    }
    read_words(alloc, &strings).expect(rt, "memory")
}

// The workers and the multiplier of a command of this name.
fn run_of(command: Option<Command>, name: &str) -> Option<(u32, Mult)> {
    match command {
        Some(Command::Run { workers, mult }) if name == "run" => Some((workers, mult)),
        Some(Command::Live { workers, mult }) if name == "live" => Some((workers, mult)),
        _ => None,
    }
}

// The schedule of a rehearsal.
fn schedule_of(command: Option<Command>) -> Option<Schedule> {
    match command {
        Some(Command::Rehearse { schedule }) => Some(schedule),
        _ => None,
    }
}

#[test]
fn words_of_a_run_are_read(rt: HostRuntime) {
    for (words, workers, mult) in &RUNS {
        let (words, workers, mult) = (*words, *workers, *mult);
        let read = command_of(&rt, rt.alloc(), words);
        let said = run_of(read, words.first().copied().unwrap_or(""));
        assert_at(&rt, said, Some((workers, mult)), "words", words);
    }
}

// The words spell a rehearsal of these lanes.
fn expect_rehearsal(rt: &impl Abort, alloc: Global, words: &[&str], lanes: &[u8]) {
    match schedule_of(command_of(rt, alloc, words)) {
        Some(schedule) => assert_at(rt, schedule.as_slice(), lanes, "words", words),
        None => panic!(rt; "{words:?}"),
    }
}

#[test]
fn words_of_a_rehearsal_are_read(rt: HostRuntime) {
    for (words, lanes) in &REHEARSALS {
        expect_rehearsal(&rt, rt.alloc(), words, lanes);
    }
}

// The three numbers of a demonstration.
fn numbers_of(command: Option<Command>) -> Option<(u64, u32, u32)> {
    match command {
        Some(
            Command::Demo {
                seed,
                messages,
                lanes,
            },
        ) => Some((seed, messages, lanes)),
        _ => None,
    }
}

#[test]
fn words_of_a_demonstration_are_read(rt: HostRuntime) {
    for (words, seed, messages, lanes) in &DEMOS {
        let (words, want) = (*words, Some((*seed, *messages, *lanes)));
        let said = numbers_of(command_of(&rt, rt.alloc(), words));
        assert_at(&rt, said, want, "words", words);
    }
}

// The name and the multiplier of `check`, of `check --live`, or of `capsules`.
fn mult_of(command: Option<Command>) -> Option<(&'static str, Mult)> {
    match command {
        Some(Command::Check { mult }) => Some(("check", mult)),
        Some(Command::CheckLive { mult }) => Some(("check --live", mult)),
        Some(Command::Capsules { mult }) => Some(("capsules", mult)),
        _ => None,
    }
}

#[test]
fn multipliers_of_other_commands_are_read(rt: HostRuntime) {
    for (words, mult) in &MULTS {
        let (words, mult) = (*words, *mult);
        for name in ["check", "capsules"] {
            let said = mult_of(command_with(&rt, rt.alloc(), name, words));
            assert_at(&rt, said, Some((name, mult)), name, words);
        }
    }
}

#[test]
fn words_of_a_live_check_are_read(rt: HostRuntime) {
    for (words, mult) in &LIVE_MULTS {
        let (words, want) = (*words, Some(("check --live", *mult)));
        let said = mult_of(command_with(&rt, rt.alloc(), "check", words));
        assert_at(&rt, said, want, "check", words);
    }
}

// Whether the words of a line spell a command.
fn is_command(rt: &impl Abort, alloc: Global, line: &str) -> bool {
    let mut words = Vec::new(alloc);
    for word in line.split("|") {
        push_word(rt, alloc, &mut words, word);
    }
    read_words(alloc, &words).expect(rt, "memory").is_some()
}

// The words of each line spell no command.
fn expect_none(rt: &impl Abort, alloc: Global, lines: &str) {
    for line in lines.lines() {
        assert_same(rt, is_command(rt, alloc, line), false, line);
    }
}

#[test]
fn other_words_spell_no_command(rt: HostRuntime) {
    let alloc = rt.alloc();
    for lines in &NO_COMMANDS {
        expect_none(&rt, alloc, lines);
    }
    let read = command_of(&rt, alloc, &[]);
    assert_same(&rt, read.is_some(), false, "no words");
}

// A schedule of so many steps, each of lane 15.
fn schedule_text(rt: &impl Abort, alloc: Global, steps: usize) -> String {
    let mut text = String::from_str(alloc, "15").expect(rt, "memory");
    for _ in 1..steps {
        text.push_str(",15").expect(rt, "memory");
    }
    text
}

// How many steps are read of such a schedule; none where the words spell no command.
fn steps_read(rt: &impl Abort, alloc: Global, steps: usize) -> Option<usize> {
    let text = schedule_text(rt, alloc, steps);
    let schedule = schedule_of(command_of(rt, alloc, &["rehearse", &text]))?;
    Some(schedule.as_slice().len())
}

#[test]
fn a_schedule_has_at_most_65536_steps(rt: HostRuntime) {
    let read = steps_read(&rt, rt.alloc(), 65_536);
    assert_same(&rt, read, Some(65_536), "65,536 steps");
    let read = steps_read(&rt, rt.alloc(), 65_537);
    assert_same(&rt, read, None, "65,537 steps");
}
