//! What `clap` makes of the words after the first.

ghost use Rattle.std.specs.Prelude.{◌≡◌, ◌<◌, ◌^◌, IfNone, IfOk, IfSome, codes, false, length, map, true};
ghost use Rattle.std.specs.List.{list_any};
ghost use Rattle.std.specs.Str.{bytes_eq};
ghost use Rattle.std.specs.String.{string_bytes};
ghost use Rattle.clap.specs.Faults.{is_simple_and_free};
ghost use Rattle.clap.specs.Simple.{app_of};
ghost use Rattle.clap.specs.Walk.{rule_of, texts};
ghost use Rattle.batch_words.specs.Parses.{IsParse, are_operands, bare_app, has_each, is_distinct, word_under};
ghost use Rattle.batch_words.specs.Parses.{app_under, option_app, rule_under};

use clap::error::ErrorKind;
use clap::{Arg, ArgAction, ArgMatches, Command as Parser};
use std::alloc::{AllocError as OutOfMemory, Global};

/// What words a command of `clap` takes.
#[derive(Clone, Copy)]
enum Form {
    /// Options, each with a value.
    Options,
    /// Words that have to stand.
    Operands,
}

// A command of `clap` with neither help nor version, whose first word is no program's name.
fn bare_parser<'a>(alloc: Global) -> Parser<'a>
    ensures { app_of result ≡ bare_app }
{
    Parser::new(alloc, "hpkebatch")
        .no_binary_name(true)
        .disable_help_flag(true)
}

// The option or the word of this name.
fn argument<'a>(alloc: Global, form: Form, name: &'a str) -> Arg<'a>
    ensures rule { rule_of result ≡ rule_under form name.now }
    ensures local { result.global ≡ false }
{
    match form {
        Form::Options => Arg::new(alloc, name).long(name).action(ArgAction::Set),
        Form::Operands => Arg::new(alloc, name).required(true).action(ArgAction::Set),
    }
}

// A command that takes an option or a word of each name.
fn parser_of<'a>(alloc: Global, form: Form, names: &'a [&'a str]) -> Result<Parser<'a>, OutOfMemory>
    ensures { IfOk result (λ parser. app_of parser ≡ app_under form (texts names.now)) }
{
    let mut parser = bare_parser(alloc);
    for name in names {
        parser = parser.arg(argument(alloc, form, *name))?;
    }
    Ok(parser)
}

// A word is `--`.
fn has_dashes(words: &[String]) -> bool
    ensures { result ≡ list_any (λ word. bytes_eq (string_bytes word) (codes "--")) words.now }
{
    words.iter().any(|word| word.as_str() == "--")
}

// What `clap` finds in the words, or none where it refuses them or one of them is `--`.
fn parse<'a>(
    alloc: Global,
    form: Form,
    names: &'a [&'a str],
    words: &'a [String],
) -> Result<Option<ArgMatches<'a>>, OutOfMemory>
    requires { is_simple_and_free (app_under form (texts names.now)) ≡ true }
    ensures { IfOk result (IsParse (app_under form (texts names.now)) (map string_bytes words.now)) }
{
    // `clap` would pass over it.
    if has_dashes(words) {
        return Ok(None);
    }
    let parser = parser_of(alloc, form, names)?;
    match parser.try_get_matches_from(words) {
        Ok(matches) => Ok(Some(matches)),
        Err(error) => match error.kind() {
            ErrorKind::OutOfMemory => Err(OutOfMemory),
            _ => Ok(None),
        },
    }
}

/// What `clap` finds where each word belongs to an option of these names, which have no hyphens.
pub(crate) fn parse_options<'a>(
    alloc: Global,
    names: &'a [&'a str],
    words: &'a [String],
) -> Result<Option<ArgMatches<'a>>, OutOfMemory>
    ensures { IfOk result (IsParse (option_app (texts names.now)) (map string_bytes words.now)) }
{
    parse(alloc, Form::Options, names, words)
}

/// What `clap` finds where the words are as many as these names and none of them is an option: each
/// word stands under the name of its place.
pub(crate) fn parse_operands<'a>(
    alloc: Global,
    names: &'a [&'a str],
    words: &'a [String],
) -> Result<Option<ArgMatches<'a>>, OutOfMemory>
    requires distinct { is_distinct (texts names.now) ≡ true }
    requires few { length names.now < 2 ^ 32 }
    ensures words { IfOk result (λ found. IfSome found (λ matches.
        map string_bytes words.now ≡ map (word_under matches) (texts names.now))) }
    ensures each { IfOk result (λ found. IfSome found (λ matches.
        has_each matches (texts names.now) ≡ true)) }
    ensures none { IfOk result (λ found. IfNone found
        (are_operands (texts names.now) (map string_bytes words.now) ≡ false)) }
{
    parse(alloc, Form::Operands, names, words)
}
