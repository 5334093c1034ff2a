//! Which word of the command line is wrong, and what it takes: a line for whoever typed it.
//!
//! It is asked only for words that spell no command. What it says has no contract: it is a text on
//! standard error, and tests show it.

use byte_strings::decimal_from_to;
use std::fmt;

/// The first word that is wrong, or the one that is missing.
#[derive(Drop)]
pub(crate) enum WrongWord<'a> {
    /// There is no word.
    NoCommand,
    /// The first word names no command.
    OtherCommand(&'a str),
    /// A word stands where none of its kind is taken.
    NotTaken(Place<'a>),
    /// An option or a command wants one more word.
    Missing(Place<'a>),
    /// An option stands twice.
    Twice(Place<'a>),
    /// A value isn't one that is taken.
    Value {
        place: Place<'a>,
        takes: &'static str,
        value: &'a str,
    },
}

/// A word of the command line, with the command that it stands behind.
#[derive(Clone, Copy)]
pub(crate) struct Place<'a> {
    command: &'a str,
    word: &'a str,
}

/// A word as it is shown: itself if it is short and plain, and else only its length.
#[derive(Drop)]
struct Shown<'a>(&'a str);

/// The most bytes of a word that are shown.
const MOST_SHOWN: usize = 60;

impl fmt::Display for Shown<'_> {
    fn fmt<W: fmt::Write>(&self, f: &mut fmt::Formatter<W>) -> fmt::Result {
        let word = self.0;
        if word.is_empty() {
            return f.write_str("an empty word");
        }
        if word.len() <= MOST_SHOWN && word.bytes().all(|byte| byte > 32 && byte < 127) {
            return f.write_str(word);
        }
        write!(f, "a word of {} bytes", word.len())
    }
}

impl fmt::Display for WrongWord<'_> {
    fn fmt<W: fmt::Write>(&self, f: &mut fmt::Formatter<W>) -> fmt::Result {
        match self {
            WrongWord::NoCommand => f.write_str(
                "a command is missing: run, rehearse, live, check, capsules or demo; see hpkebatch help",
            ),
            WrongWord::OtherCommand(word) => {
                write!(f, "there is no command {}; see hpkebatch help", Shown(word))
            }
            WrongWord::NotTaken(place) => write!(
                f,
                "{} doesn't take {}; see hpkebatch help {}",
                place.command,
                Shown(place.word),
                place.command
            ),
            WrongWord::Missing(place) => write!(
                f,
                "{} is missing; see hpkebatch help {}",
                place.word, place.command
            ),
            WrongWord::Twice(place) => write!(
                f,
                "{} stands twice; see hpkebatch help {}",
                place.word, place.command
            ),
            WrongWord::Value {
                place,
                takes,
                value,
            } => write!(
                f,
                "{} takes {takes}, not {}; see hpkebatch help {}",
                place.word,
                Shown(value),
                place.command
            ),
        }
    }
}

/// What is wrong with words that spell no command, as far as one word can be blamed.
pub(crate) fn wrong_word(words: &[String]) -> Option<WrongWord<'_>> {
    let [first, rest @ ..] = words else {
        return Some(WrongWord::NoCommand);
    };
    let command = first.as_str();
    match command {
        "run" | "live" => wrong_option(command, true, rest),
        "capsules" => wrong_option(command, false, rest),
        "check" => wrong_option(command, false, beside_live(rest)),
        "rehearse" => wrong_schedule(command, rest),
        "demo" => wrong_number(command, rest),
        _ => Some(WrongWord::OtherCommand(command)),
    }
}

// The words beside `--live`, where it is the first or the last one.
fn beside_live(words: &[String]) -> &[String] {
    match words {
        [first, rest @ ..] if first.as_str() == "--live" => rest,
        [rest @ .., last] if last.as_str() == "--live" => rest,
        _ => words,
    }
}

// What a value of an option is, and whether this is one.
fn takes_of(option: &str) -> &'static str {
    if option == "--workers" {
        return "1 to 16";
    }
    "plain, karatsuba or lanes"
}

fn is_taken(option: &str, value: &str) -> bool {
    if option == "--workers" {
        return decimal_from_to(value.as_bytes(), 1, 16).is_some();
    }
    matches!(value, "plain" | "karatsuba" | "lanes")
}

// Which options stood so far.
#[derive(Drop)]
struct Stood {
    workers: bool,
    mult: bool,
}

impl Stood {
    // Notes an option, and tells whether it stood before.
    fn stands_again(&mut self, option: &str) -> bool {
        let stood = if option == "--workers" {
            &mut self.workers
        } else {
            &mut self.mult
        };
        let before = *stood;
        *stood = true;
        before
    }
}

// What is wrong with the name of an option.
fn wrong_name<'a>(place: Place<'a>, has_workers: bool, stood: &mut Stood) -> Option<WrongWord<'a>> {
    if !(place.word == "--mult" || has_workers && place.word == "--workers") {
        return Some(WrongWord::NotTaken(place));
    }
    if stood.stands_again(place.word) {
        return Some(WrongWord::Twice(place));
    }
    None
}

// What is wrong with the value of an option.
fn wrong_value<'a>(place: Place<'a>, value: &'a str) -> Option<WrongWord<'a>> {
    if is_taken(place.word, value) {
        return None;
    }
    Some(WrongWord::Value {
        place,
        takes: takes_of(place.word),
        value,
    })
}

// The first word that is no option with a value that it takes.
fn wrong_option<'a>(
    command: &'a str,
    has_workers: bool,
    words: &'a [String],
) -> Option<WrongWord<'a>> {
    let mut stood = Stood {
        workers: false,
        mult: false,
    };
    let mut waiting: Option<Place<'a>> = None;
    for word in words.iter() {
        let word = word.as_str();
        if let Some(place) = waiting {
            if let Some(wrong) = wrong_value(place, word) {
                return Some(wrong);
            }
            waiting = None;
            continue;
        }
        let (name, value) = match word.split_once('=') {
            Some((name, value)) => (name, Some(value)),
            None => (word, None),
        };
        let place = Place {
            command,
            word: name,
        };
        if let Some(wrong) = wrong_name(place, has_workers, &mut stood) {
            return Some(wrong);
        }
        match value {
            Some(value) => {
                if let Some(wrong) = wrong_value(place, value) {
                    return Some(wrong);
                }
            }
            None => waiting = Some(place),
        }
    }
    let place = waiting?;
    Some(WrongWord::Missing(Place {
        command,
        word: if place.word == "--workers" {
            "the number of --workers"
        } else {
            "the multiplier of --mult"
        },
    }))
}

// What is wrong with the words behind `rehearse`.
fn wrong_schedule<'a>(command: &'a str, words: &'a [String]) -> Option<WrongWord<'a>> {
    let missing = Place {
        command,
        word: "the schedule, - or as 0,1,0,",
    };
    match words {
        [] => Some(WrongWord::Missing(missing)),
        [schedule] => Some(WrongWord::Value {
            place: Place {
                command,
                word: "the schedule",
            },
            takes: "- or up to 65,536 numbers from 0 to 15 with a comma between each two",
            value: schedule.as_str(),
        }),
        [_, more, ..] => Some(WrongWord::NotTaken(Place {
            command,
            word: more.as_str(),
        })),
    }
}

// A number of a demonstration: its name, its range in words, and its last values.
struct Number {
    word: &'static str,
    takes: &'static str,
    low: u64,
    high: u64,
}

const NUMBERS: [Number; 3] = [
    Number {
        word: "SEED",
        takes: "0 to 18446744073709551615",
        low: 0,
        high: u64::MAX,
    },
    Number {
        word: "MESSAGES",
        takes: "1 to 65536",
        low: 1,
        high: 65_536,
    },
    Number {
        word: "LANES",
        takes: "1 to 16",
        low: 1,
        high: 16,
    },
];

// What is wrong with the words behind `demo`.
fn wrong_number<'a>(command: &'a str, words: &'a [String]) -> Option<WrongWord<'a>> {
    for (i, number) in NUMBERS.iter().enumerate() {
        let place = Place {
            command,
            word: number.word,
        };
        let Some(value) = words.get(i) else {
            return Some(WrongWord::Missing(place));
        };
        if decimal_from_to(value.as_bytes(), number.low, number.high).is_none() {
            return Some(WrongWord::Value {
                place,
                takes: number.takes,
                value: value.as_str(),
            });
        }
    }
    Some(WrongWord::NotTaken(Place {
        command,
        word: words.get(3)?.as_str(),
    }))
}
