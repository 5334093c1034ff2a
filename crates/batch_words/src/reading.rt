//! From the words to the command.

ghost use Rattle.std.specs.Prelude.{◌≡◌, [], ◌∷◌, IfOk, IfSome, MatchOption, None, Some, codes, map, slice_get, true};
ghost use Rattle.std.specs.String.{string_bytes};
ghost use Rattle.batch_words.specs.Parses.{has_each, word_under};
ghost use Rattle.batch_words.specs.Words.{IsWithin, beside_live as beside_live_of, is_live as is_live_of};
ghost use Rattle.batch_words.specs.Words.{capsules, check, command_of};
ghost use Rattle.batch_words.specs.Words.{demo, live, numbers};
ghost use Rattle.batch_words.specs.Words.{only_mult, rehearse, run};

use crate::commands::{Command, Mult};
use crate::options::read_options;
use crate::parsing::parse_operands;
use crate::schedules::read_schedule;
use byte_strings::decimal_from_to;
use clap::ArgMatches;
use std::alloc::{AllocError as OutOfMemory, Global};

/// The most messages of a demonstration.
const MOST_MESSAGES: u64 = 65_536;

/// The most lanes.
const MOST_LANES: u64 = 16;

/// The command that the words spell, or none where they are not in the grammar.
///
/// `words` are those of the command line without the program's name. The first is `run`, `live`,
/// `rehearse`, `demo`, `check` or `capsules`.
///
/// After `run` and after `live` there may stand `--workers W` and `--mult M`, each at most once, in
/// either order, as two words or as one word with `=`. W is a decimal from 1 to 16 without leading
/// zeros, and 4 where the option does not stand. M is `plain`, `karatsuba` or `lanes`, and `lanes`
/// where the option does not stand.
///
/// After `rehearse` there stands one word: `-` for a schedule of no steps, or 1 to 65,536 decimals
/// from 0 to 15 without leading zeros, with a comma between each two.
///
/// After `demo` there stand three decimals without leading zeros: a seed from 0 to 2^64 − 1, a number
/// of messages from 1 to 65,536, and a number of lanes from 1 to 16.
///
/// After `check` and after `capsules` there may stand `--mult M`, as after `run`. After `check` there
/// may also stand `--live`, before it or behind it.
///
/// All else is no command, such as a request for help or version, a word `--`, or an abbreviation.
/// Nothing is printed. The one error is want of memory.
pub fn read_words(alloc: Global, words: &[String]) -> Result<Option<Command>, OutOfMemory>
    ensures command { IfOk result (λ command. command ≡ command_of (map string_bytes words.now)) }
    ensures within { IfOk result (λ command. IfSome command IsWithin) }
{
    let [first, rest @ ..] = words else {
        return Ok(None);
    };
    match first.as_str() {
        "run" => read_run(alloc, rest),
        "live" => read_live(alloc, rest),
        "rehearse" => read_rehearse(alloc, rest),
        "demo" => read_demo(alloc, rest),
        "check" => read_check(alloc, rest),
        "capsules" => read_capsules(alloc, rest),
        _ => Ok(None),
    }
}

// The words after `run`.
fn read_run(alloc: Global, words: &[String]) -> Result<Option<Command>, OutOfMemory>
    ensures { IfOk result (λ command. command ≡ run (map string_bytes words.now)) }
{
    let options = read_options(alloc, &["workers", "mult"], words)?;
    Ok(options.map(|options| Command::Run {
        workers: options.workers,
        mult: options.mult,
    }))
}

// The words after `live`.
fn read_live(alloc: Global, words: &[String]) -> Result<Option<Command>, OutOfMemory>
    ensures { IfOk result (λ command. command ≡ live (map string_bytes words.now)) }
{
    let options = read_options(alloc, &["workers", "mult"], words)?;
    Ok(options.map(|options| Command::Live {
        workers: options.workers,
        mult: options.mult,
    }))
}

// The schedule of a rehearsal, from the word under its name.
fn read_steps(alloc: Global, words: &ArgMatches) -> Result<Option<Command>, OutOfMemory>
    requires { has_each words.now (codes "schedule" ∷ []) ≡ true }
    ensures { IfOk result (λ command.
        command ≡ rehearse (word_under words.now (codes "schedule") ∷ [])) }
{
    let schedule = read_schedule(alloc, words.get_str("schedule").unwrap())?;
    Ok(schedule.map(|schedule| Command::Rehearse { schedule }))
}

// The words after `rehearse`.
fn read_rehearse(alloc: Global, words: &[String]) -> Result<Option<Command>, OutOfMemory>
    ensures { IfOk result (λ command. command ≡ rehearse (map string_bytes words.now)) }
{
    match parse_operands(alloc, &["schedule"], words)? {
        Some(matches) => read_steps(alloc, &matches),
        None => Ok(None),
    }
}

// SEED, MESSAGES and LANES, or none.
fn numbers(seed: &str, messages: &str, lanes: &str) -> Option<Command>
    ensures { result ≡ numbers seed.now messages.now lanes.now }
{
    let seed = decimal_from_to(seed.as_bytes(), 0, u64::MAX)?;
    let messages = decimal_from_to(messages.as_bytes(), 1, MOST_MESSAGES)?;
    let lanes = decimal_from_to(lanes.as_bytes(), 1, MOST_LANES)?;
    Some(Command::Demo {
        seed,
        messages: messages as u32,
        lanes: lanes as u32,
    })
}

// The numbers of a demonstration, from the words under their names.
fn read_numbers(words: &ArgMatches) -> Option<Command>
    requires { has_each words.now (codes "seed" ∷ codes "messages" ∷ codes "lanes" ∷ []) ≡ true }
    ensures { result ≡ numbers (word_under words.now (codes "seed"))
        (word_under words.now (codes "messages")) (word_under words.now (codes "lanes")) }
{
    let seed = words.get_str("seed").unwrap();
    let messages = words.get_str("messages").unwrap();
    let lanes = words.get_str("lanes").unwrap();
    numbers(seed, messages, lanes)
}

// The words after `demo`.
fn read_demo(alloc: Global, words: &[String]) -> Result<Option<Command>, OutOfMemory>
    ensures { IfOk result (λ command. command ≡ demo (map string_bytes words.now)) }
{
    match parse_operands(alloc, &["seed", "messages", "lanes"], words)? {
        Some(matches) => Ok(read_numbers(&matches)),
        None => Ok(None),
    }
}

// M of a command that has no other option.
fn read_mult(alloc: Global, words: &[String]) -> Result<Option<Mult>, OutOfMemory>
    ensures { IfOk result (λ mult. mult ≡ only_mult (map string_bytes words.now)) }
{
    let options = read_options(alloc, &["mult"], words)?;
    Ok(options.map(|options| options.mult))
}

// Whether there is such a word and it is `--live`.
fn is_live(words: &[String], at: usize) -> bool
    ensures { result ≡ is_live_of (slice_get (map string_bytes words.now) at) }
{
    match words.get(at) {
        Some(word) => word.as_str() == "--live",
        None => false,
    }
}

// The words beside `--live`, where it is the first or the last one.
fn beside_live(words: &[String]) -> Option<&[String]>
    ensures { MatchOption result (beside_live_of (map string_bytes words.now) ≡ None)
        (λ others. beside_live_of (map string_bytes words.now)
        ≡ Some (map string_bytes others.now)) }
{
    let others = words.len().saturating_sub(1);
    if is_live(words, 0) {
        return Some(&words[1..]);
    }
    if is_live(words, others) {
        return Some(&words[..others]);
    }
    None
}

// The words after `check`.
fn read_check(alloc: Global, words: &[String]) -> Result<Option<Command>, OutOfMemory>
    ensures { IfOk result (λ command. command ≡ check (map string_bytes words.now)) }
{
    match beside_live(words) {
        Some(others) => { Ok(read_mult(alloc, others)?.map(|mult| Command::CheckLive { mult })) }
        None => Ok(read_mult(alloc, words)?.map(|mult| Command::Check { mult })),
    }
}

// The words after `capsules`.
fn read_capsules(alloc: Global, words: &[String]) -> Result<Option<Command>, OutOfMemory>
    ensures { IfOk result (λ command. command ≡ capsules (map string_bytes words.now)) }
{
    Ok(read_mult(alloc, words)?.map(|mult| Command::Capsules { mult }))
}
