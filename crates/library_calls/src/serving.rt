//! A batch, served whole on the calling thread.

ghost use Rattle.std.specs.Prelude.{◌≡◌, ◌≢◌, ◌⊎◌, ◌↔◌, ◌<◌, ◌≤◌, length, map, take, drop, IfOk, None};
ghost use Rattle.std.specs.List.{list_all};
ghost use Rattle.std.specs.String.{string_bytes};
ghost use Rattle.batch_words.specs.Words.{command_of};
ghost use Rattle.batch_serving.specs.declared.outcomes.Outcome.TheVariants.{Done};
ghost use Rattle.library_calls.specs.Serving.{HasBrokenResult, HasText, IsNoBatchFor, IsServed, MayAnswer, NeedsRoom};
ghost use Rattle.library_calls.specs.Serving.{TellsBadFor, TellsBroken, command_in, is_ascii, words_in};

use crate::outputs::put;
use crate::statuses::{BAD_BATCH, BROKEN, NO_MEMORY, NO_ROOM, WRONG_USAGE};
use aes_gcm::MayCheck;
use batch_alone::serve_alone;
use batch_serving::Outcome;
use reply_frames::TextSink;
use std::alloc::{AllocError, Global};
use std::rt::Memory;

// The words of a line, with one space between each two.
fn words_in(alloc: Global, line: &str) -> Result<Vec<String>, AllocError>
    ensures { IfOk result (λ words. map string_bytes words.items ≡ words_in line.now) }
{
    let mut words = Vec::new(alloc);
    for word in line.split(' ') {
        words.push(String::from_str(alloc, word)?)?;
    }
    Ok(words)
}

// Whether all bytes of a line are ASCII.
fn is_text(line: &[u8]) -> bool
    ensures { result ≡ list_all is_ascii line.now }
{
    line.iter().all(|byte| *byte < 128)
}

// Puts a text to the front of `output`, or tells its size where there is no room for it.
fn put_text(status: u32, text: &[u8], output: &mut [u8], written: &mut usize) -> u32
    requires { status ≢ 5 }
    ensures whole { result ≢ 5 → (result ≡ status) × (take written.new output.new ≡ text.now) }
    ensures size { result ≢ 5 → written.new ≤ length output.new }
    ensures room { result ≡ 5 → (written.new ≡ length text.now)
        × (length output.old < length text.now) × (output.new ≡ output.old) }
    ensures behind { drop written.new output.new ≡ drop written.new output.old }
{
    if put(text, output, written) {
        return status;
    }
    *written = text.len();
    NO_ROOM
}

// Serves what words ask for.
fn serve_words(
    alloc: Global,
    memory: Memory,
    words: &[String],
    input: &[u8],
    output: &mut [u8],
    written: &mut usize,
) -> u32
    ensures { IsServed (command_of (map string_bytes words.now)) input.now output.old output.new
        written.old written.new result }
{
    let mut sink = TextSink::new(alloc);
    match serve_alone(MayCheck::alone(memory), alloc, words, input, &mut sink) {
        Outcome::Done => put_text(0, &sink.text, output, written),
        Outcome::BadBatch { .. } => put_text(BAD_BATCH, &sink.text, output, written),
        Outcome::Broken { .. } => put_text(BROKEN, &sink.text, output, written),
        Outcome::Usage => WRONG_USAGE,
        Outcome::ReadFault | Outcome::WriteFault | Outcome::OutOfMemory => NO_MEMORY,
    }
}

// Serves what a line of words asks for.
fn serve_line(
    alloc: Global,
    memory: Memory,
    line: &str,
    input: &[u8],
    output: &mut [u8],
    written: &mut usize,
) -> u32
    ensures { IsServed (command_of (words_in line.now)) input.now output.old output.new
        written.old written.new result }
{
    match words_in(alloc, line) {
        Ok(words) => serve_words(alloc, memory, &words, input, output, written),
        Err(_) => NO_MEMORY,
    }
}

// Serves what a line of bytes asks for, if it is text.
fn serve_spelled(
    alloc: Global,
    memory: Memory,
    words: &[u8],
    input: &[u8],
    output: &mut [u8],
    written: &mut usize,
) -> u32
    ensures { IsServed (command_in words.now) input.now output.old output.new
        written.old written.new result }
{
    if !is_text(words) {
        return WRONG_USAGE;
    }
    match str::from_utf8(words) {
        Ok(line) => serve_line(alloc, memory, line, input, output, written),
        Err(_) => unreachable!(),
    }
}

/// Serves any command on the calling thread. `words` are those of its command line, ASCII text with one
/// space between each two, as `run --mult lanes`.
///
/// Status 0: the text that the command writes for `input` stands at the front of `output`, and `written`
/// is its size. 3: so does the line of its first bad line. 7: `check` told what is wrong. 5: `output`
/// has no room for the text, and `written` is its size. 2: the words are none of the command's. 6: out of
/// memory. But for 0, 3 and 7, `output` is as it was.
///
/// There are no other statuses. Unless there is no room, or memory runs out, a bad line has status 3 and
/// a wrong result has status 7.
pub fn serve(
    alloc: Global,
    memory: Memory,
    words: &[u8],
    input: &[u8],
    output: &mut [u8],
    written: &mut usize,
) -> u32
    ensures done { result ≡ 0
        → MayAnswer (command_in words.now) input.now Done (take written.new output.new) }
    ensures bad { result ≡ 3
        → TellsBadFor (command_in words.now) input.now (take written.new output.new) }
    ensures broken { result ≡ 7
        → TellsBroken (command_in words.now) input.now (take written.new output.new) }
    ensures room { result ≡ 5
        → NeedsRoom (command_in words.now) input.now (length output.old) written.new }
    ensures usage { result ≢ 6 → ((result ≡ 2) ↔ (command_in words.now ≡ None)) }
    ensures no_batch { result ≢ 5 → result ≢ 6
        → ((result ≡ 3) ↔ IsNoBatchFor (command_in words.now) input.now) }
    ensures broken_result { result ≢ 5 → result ≢ 6
        → ((result ≡ 7) ↔ HasBrokenResult (command_in words.now) input.now) }
    ensures statuses { (result ≡ 0) ⊎ (result ≡ 2) ⊎ (result ≡ 3) ⊎ (result ≡ 5) ⊎ (result ≡ 6)
        ⊎ (result ≡ 7) }
    ensures size { HasText result → written.new ≤ length output.new }
    ensures behind { drop written.new output.new ≡ drop written.new output.old }
    ensures kept { ¬ HasText result → output.new ≡ output.old }
    ensures told { ¬ HasText result → result ≢ 5 → written.new ≡ written.old }
{
    serve_spelled(alloc, memory, words, input, output, written)
}
