//! The texts.

ghost use Rattle.std.specs.Prelude.{◌≡◌, ◌<◌, ◌≤◌, ◌++◌, ◌*◌, List, ℕ, length, codes, string_bytes};
ghost use Rattle.std.specs.Prelude.{IfOk, OnOk, if◌then◌else◌, []};
ghost use Rattle.std.specs.List.{flat_map, range_with_len};
ghost use Rattle.std.specs.Fork.{slice_chunk};
ghost use Rattle.demo_runs.specs.Texts.{front_text, seal_line, sealing_text, sealing_lane};
ghost use Rattle.demo_runs.specs.Texts.{opening_text, opening_line, opening_size, item_text};
ghost use Rattle.demo_runs.specs.SetUp.{seed_bytes};
ghost use Rattle.field_text.specs.Printing.{hex_text};

use crate::ciphertext_bytes::CIPHERTEXT_SIZE;
use std::alloc::{AllocError, Global};

const SET_UP_LINES: &str =
    "\nkeygen\nsend 1 1 0 base 64656d6f - - 65536\nrecv 1 1 0 @0 base 64656d6f - - 65536\n";

const SEAL_LINE: &str =
    "seal 0 - 000102030405060708090a0b0c0d0e0f101112131415161718191a1b1c1d1e1f202122232425262728292a2b2c2d2e2f303132333435363738393a3b3c3d3e3f\n";

// The messages of a line `unsealall`.
const OPENING_SIZE: usize = 256;

// SEED as the seed of 32 bytes, in hex.
fn seed_digits(alloc: Global, seed: u64) -> Result<String, AllocError>
    ensures { IfOk result (λ text. string_bytes text ≡ hex_text (seed_bytes seed)) }
{
    let [a, b, c, d, e, f, g, h] = seed.to_be_bytes();
    let bytes = [
        a, b, c, d, e, f, g, h, 0, 0, 0, 0, 0, 0, 0, 0, 0, 0, 0, 0, 0, 0, 0, 0, 0, 0, 0, 0, 0, 0,
        0, 0,
    ];
    hex::encode(alloc, bytes)
}

// The first five lines of both texts.
fn front_text(alloc: Global, seed: u64) -> Result<String, AllocError>
    ensures { IfOk result (λ text. string_bytes text ≡ front_text seed) }
{
    let digits = seed_digits(alloc, seed)?;
    let mut text = String::from_str(alloc, "hpkebatch 1\nrand ")?;
    text.push_str(digits.as_str())?;
    text.push_str(SET_UP_LINES)?;
    Ok(text)
}

// A line `seal`, where it is the lane's.
fn push_seal(text: &mut String, is_own: bool) -> Result<(), AllocError>
    ensures { OnOk result (string_bytes text.new
        ≡ string_bytes text.old ++ (if is_own then seal_line else [])) }
{
    if is_own {
        return text.push_str(SEAL_LINE);
    }
    Ok(())
}

// A lane of so many: a line for each message that leaves its number.
fn push_lane(text: &mut String, messages: u32, lanes: u32, lane: u32) -> Result<(), AllocError>
    requires { 0 < lanes }
    ensures { OnOk result (string_bytes text.new
        ≡ string_bytes text.old ++ sealing_lane messages lanes lane) }
{
    text.push_str("lane\n")?;
    'messages: for j in 0..messages {
        push_seal(text, j % lanes == lane)?;
    }
    Ok(())
}

/// The batch that seals so many messages in so many lanes.
pub(crate) fn sealing_text(
    alloc: Global,
    seed: u64,
    messages: u32,
    lanes: u32,
) -> Result<String, AllocError>
    requires { 0 < lanes }
    ensures { IfOk result (λ text. string_bytes text ≡ sealing_text seed messages lanes) }
{
    let mut text = front_text(alloc, seed)?;
    'lanes: for lane in 0..lanes {
        push_lane(&mut text, messages, lanes, lane)?;
    }
    text.push_str("end\n")?;
    Ok(text)
}

// The ciphertexts of line n.
fn part(cts: &[[u8; CIPHERTEXT_SIZE]], n: usize) -> &[[u8; CIPHERTEXT_SIZE]]
    requires { n * 256 < length cts.now }
    ensures { result.now ≡ slice_chunk cts.now opening_size n }
{
    let start = n * OPENING_SIZE;
    let end = cts.len().min(start + OPENING_SIZE);
    &cts[start..end]
}

// A ciphertext of a line, behind its associated data, which is empty.
fn push_ciphertext(
    alloc: Global,
    text: &mut String,
    ct: &[u8; CIPHERTEXT_SIZE],
) -> Result<(), AllocError>
    ensures { OnOk result (string_bytes text.new ≡ string_bytes text.old ++ item_text ct.now) }
{
    text.push_str(" - ")?;
    text.push_str(&hex::encode(alloc, ct)?)
}

// A line that opens these.
fn push_opening(
    alloc: Global,
    text: &mut String,
    cts: &[[u8; CIPHERTEXT_SIZE]],
) -> Result<(), AllocError>
    ensures { OnOk result (string_bytes text.new ≡ string_bytes text.old ++ opening_line cts.now) }
{
    text.push_str("unsealall 1")?;
    'ciphertexts: for ct in cts {
        push_ciphertext(alloc, text, ct)?;
    }
    text.push_str("\n")?;
    Ok(())
}

/// The batch that opens these ciphertexts in their order.
pub(crate) fn opening_text(
    alloc: Global,
    seed: u64,
    cts: &[[u8; CIPHERTEXT_SIZE]],
) -> Result<String, AllocError>
    requires { length cts.now ≤ 65536 }
    ensures { IfOk result (λ text. string_bytes text ≡ opening_text seed cts.now) }
{
    let mut text = front_text(alloc, seed)?;
    text.push_str("lane\n")?;
    'lines: for n in 0..cts.len().div_ceil(OPENING_SIZE) {
        push_opening(alloc, &mut text, part(cts, n))?;
    }
    text.push_str("end\n")?;
    Ok(text)
}
