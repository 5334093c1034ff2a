//! Options: a name, with its hyphens, and a value.

ghost use Rattle.std.specs.Prelude.{◌≡◌, IfOk, map, true};
ghost use Rattle.std.specs.List.{list_all};
ghost use Rattle.std.specs.Option.{option_copied};
ghost use Rattle.std.specs.String.{string_bytes};
ghost use Rattle.clap.specs.Walk.{texts};
ghost use Rattle.batch_words.specs.Parses.{dashed, is_known};
ghost use Rattle.batch_words.specs.Words.{mult as mult_said, options, workers as workers_said};
ghost use Rattle.batch_words.specs.Words.{options_with as options_said};

use crate::commands::Mult;
use crate::parsing::parse_options;
use byte_strings::decimal_from_to;
use std::alloc::{AllocError as OutOfMemory, Global};

/// The workers where the words name none.
const DEFAULT_WORKERS: u32 = 4;

/// The most workers.
const MOST_WORKERS: u64 = 16;

/// What the options of a command say: each that does not stand says the usual.
#[derive(Clone, Copy)]
pub(crate) struct Options {
    pub workers: u32,
    pub mult: Mult,
}

// W, or the usual.
fn workers(value: Option<&str>) -> Option<u32>
    ensures { result ≡ workers_said (option_copied value.entry) }
{
    match value {
        Some(text) => Some(decimal_from_to(text.as_bytes(), 1, MOST_WORKERS)? as u32),
        None => Some(DEFAULT_WORKERS),
    }
}

// M, or the usual.
fn mult(value: Option<&str>) -> Option<Mult>
    ensures { result ≡ mult_said (option_copied value.entry) }
{
    match value {
        Some("plain") => Some(Mult::Plain),
        Some("karatsuba") => Some(Mult::Karatsuba),
        Some("lanes") | None => Some(Mult::Lanes),
        Some(_) => None,
    }
}

fn options_with(workers_value: Option<&str>, mult_value: Option<&str>) -> Option<Options>
    ensures { result ≡ options_said (option_copied workers_value.entry)
        (option_copied mult_value.entry) }
{
    let workers = workers(workers_value)?;
    let mult = mult(mult_value)?;
    Some(Options { workers, mult })
}

/// What the words say as options of these names, or none where they are not such options.
///
/// A name stands here without its hyphens, and is `workers` or `mult`.
pub(crate) fn read_options<'a>(
    alloc: Global,
    names: &'a [&'a str],
    words: &'a [String],
) -> Result<Option<Options>, OutOfMemory>
    requires { list_all is_known (texts names.now) ≡ true }
    ensures { IfOk result (λ said.
        said ≡ options (map dashed (texts names.now)) (map string_bytes words.now)) }
{
    match parse_options(alloc, names, words)? {
        Some(matches) => Ok(options_with(matches.get_str("workers"), matches.get_str("mult"))),
        None => Ok(None),
    }
}
