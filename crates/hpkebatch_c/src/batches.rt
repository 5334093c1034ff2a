//! Batches: whether a text is one, whether a reply is one of a batch, and one that is served whole.

ghost use Rattle.std.specs.Prelude.{◌≡◌, ◌≢◌, ◌⊎◌, ◌↔◌, length, ◌<◌, ◌≤◌, take, drop, None};
ghost use Rattle.batch_plans.specs.Limits.{most_input};
ghost use Rattle.batch_serving.specs.declared.outcomes.Outcome.TheVariants.{Done};
ghost use Rattle.library_calls.specs.Serving.{HasBrokenResult, HasText, IsNoBatchFor, MayAnswer, NeedsRoom, TellsBadFor, TellsBroken, command_in};
ghost use Rattle.library_calls.specs.Texts.{IsBatch, IsNoBatch, TellsBad, HasLongerLine, IsReplyTo, IsNoReplyTo};

use library_calls::{check, read, serve};
use std::alloc::Global;
use std::rt::Memory;

/// Reads a batch of `run`. Status 0: it is one. 3: it isn't, and the line `bad LINE REASON` that
/// `run` writes for it stands at the front of `out`, and `out_len` is its size. 5: `out` has no room
/// for that line. 6: out of memory.
#[unsafe(no_mangle)]
pub extern "C" fn hpkebatch_read(
    alloc: Global,
    input: &[u8],
    out: &mut [u8],
    out_len: &mut usize,
) -> u32
    ensures batch { result ≢ 6 → ((result ≡ 0) ↔ IsBatch input.now) }
    ensures no_batch { result ≢ 6
        → (((result ≡ 3) ⊎ (result ≡ 5)) ↔ IsNoBatch input.now) }
    ensures bad { result ≡ 3 → TellsBad input.now (take out_len.new out.new) }
    ensures room { result ≢ 6 → ((result ≡ 5) ↔ HasLongerLine input.now (length out.old)) }
    ensures statuses { (result ≡ 0) ⊎ (result ≡ 3) ⊎ (result ≡ 5) ⊎ (result ≡ 6) }
    ensures size { result ≡ 3 → out_len.new ≤ length out.new }
    ensures behind { drop out_len.new out.new ≡ drop out_len.new out.old }
    ensures refused { result ≢ 3 → (out.new ≡ out.old) × (out_len.new ≡ out_len.old) }
{
    read(alloc, input, out, out_len)
}

/// Judges a reply to a batch. Status 0: `run` may give it for the batch. 7: it may not. 3: the batch
/// isn't one. 2: the reply has more than 67,108,864 bytes. 6: out of memory.
#[unsafe(no_mangle)]
pub extern "C" fn hpkebatch_check(alloc: Global, memory: Memory, batch: &[u8], reply: &[u8]) -> u32
    ensures usage { (result ≡ 2) ↔ (most_input < length reply.now) }
    ensures legal { result ≢ 2 → result ≢ 6 → ((result ≡ 0) ↔ IsReplyTo batch.now reply.now) }
    ensures broken { result ≢ 2 → result ≢ 6 → ((result ≡ 7) ↔ IsNoReplyTo batch.now reply.now) }
    ensures bad { result ≢ 2 → result ≢ 6 → ((result ≡ 3) ↔ IsNoBatch batch.now) }
    ensures statuses { (result ≡ 0) ⊎ (result ≡ 2) ⊎ (result ≡ 3) ⊎ (result ≡ 6) ⊎ (result ≡ 7) }
{
    check(alloc, memory, batch, reply)
}

/// Serves any command on the calling thread. `words` are those of its command line, ASCII text with one
/// space between each two, as `run --mult lanes`.
///
/// Status 0: the text that the command writes for `input` stands at the front of `output`, and `written`
/// is its size. 3: so does the line of its first bad line. 7: `check` told what is wrong. 5: `output`
/// has no room for the text, and `written` is its size. 2: the words are none of the command's. 6: out of
/// memory. But for 0, 3 and 7, `output` is as it was.
///
/// There are no other statuses. Unless there is no room, or memory runs out, a bad line has status 3 and
/// a wrong result has status 7.
#[unsafe(no_mangle)]
pub extern "C" fn hpkebatch_serve(
    alloc: Global,
    memory: Memory,
    words: &[u8],
    input: &[u8],
    output: &mut [u8],
    written: &mut usize,
) -> u32
    ensures done { result ≡ 0
        → MayAnswer (command_in words.now) input.now Done (take written.new output.new) }
    ensures bad { result ≡ 3
        → TellsBadFor (command_in words.now) input.now (take written.new output.new) }
    ensures broken { result ≡ 7
        → TellsBroken (command_in words.now) input.now (take written.new output.new) }
    ensures room { result ≡ 5
        → NeedsRoom (command_in words.now) input.now (length output.old) written.new }
    ensures usage { result ≢ 6 → ((result ≡ 2) ↔ (command_in words.now ≡ None)) }
    ensures no_batch { result ≢ 5 → result ≢ 6
        → ((result ≡ 3) ↔ IsNoBatchFor (command_in words.now) input.now) }
    ensures broken_result { result ≢ 5 → result ≢ 6
        → ((result ≡ 7) ↔ HasBrokenResult (command_in words.now) input.now) }
    ensures statuses { (result ≡ 0) ⊎ (result ≡ 2) ⊎ (result ≡ 3) ⊎ (result ≡ 5) ⊎ (result ≡ 6)
        ⊎ (result ≡ 7) }
    ensures size { HasText result → written.new ≤ length output.new }
    ensures behind { drop written.new output.new ≡ drop written.new output.old }
    ensures kept { ¬ HasText result → output.new ≡ output.old }
    ensures told { ¬ HasText result → result ≢ 5 → written.new ≡ written.old }
{
    serve(alloc, memory, words, input, output, written)
}
