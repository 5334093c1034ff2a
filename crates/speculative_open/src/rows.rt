//! The rows of a table, each made from one item.

ghost use Rattle.std.specs.Prelude.{◌≡◌, ◌≤◌, ◌<◌, ◌+◌, ◌↔◌, ℕ, All, IfSome, IsNone, length, slice_get, slice_index_or, [], Some};
ghost use Rattle.call_places.specs.declared.spans.Item.{Item};
ghost use Rattle.call_places.specs.Messages.{sealed_message};
ghost use Rattle.call_places.specs.Spans.{ItemIsInPool};
ghost use Rattle.key_schedule.specs.Nonces.{compute_nonce};
ghost use Rattle.speculative_open.specs.Tables.{IsChecked, IsRow};

use aes_gcm::MayCheck;
use call_places::Item;
use hpke_aead::AeadKey;
use key_schedule::nonce_at;
use std::thread;
use std::thread::Threads;

/// How many numbers an item is checked at.
const WINDOW: usize = 4;

/// Verdict k of row i is that of item i at the number guess + i - k. Where the item isn't checked
/// there, nobody reads it.
pub(crate) type Row = [bool; WINDOW];

/// A row before its item is checked.
pub(crate) const BLANK: Row = [false; WINDOW];

/// The k for which `n` is guess + i - k, if item `i` is checked at `n`.
pub(crate) fn place(guess: u64, limit: u64, i: usize, n: u64) -> Option<usize>
    ensures none { IsNone result ↔ ¬ IsChecked guess limit i n }
    ensures some { IfSome result (λ k. IsChecked guess limit i n × (n + k ≡ guess + i)) }
{
    if n > limit {
        return None;
    }
    let ahead = n.checked_sub(guess)?;
    let k = i.checked_sub(ahead as usize)?;
    if k >= WINDOW {
        return None;
    }
    Some(k)
}

/// What rows are made with, besides the items.
#[derive(Drop)]
pub(crate) struct Opener<'a> {
    pub(crate) key: &'a AeadKey,
    pub(crate) base_nonce: &'a [u8; 12],
    pub(crate) guess: u64,
    pub(crate) limit: u64,
    pub(crate) pool: &'a [u8],
}

impl Opener<'_> {
    // The nonce of the number guess + i - k. Where that is no number up to LIMIT, it is any nonce.
    fn nonce(&self, i: usize, k: usize) -> [u8; 12]
        ensures { (n : ℕ) → n + k ≡ self.now.guess + i → n ≤ self.now.limit
            → result ≡ compute_nonce self.now.base_nonce.now n }
    {
        let number = self.guess.wrapping_add(i as u64).wrapping_sub(k as u64);
        nonce_at(self.base_nonce, number)
    }

    // Row i, of this item: one call for all its numbers.
    pub(crate) fn row(&self, permission: MayCheck, i: usize, item: Item) -> Row
        requires { ItemIsInPool (length self.now.pool.now) item }
        ensures { IsRow self.now.guess self.now.limit self.now.key.now self.now.base_nonce.now i
            (sealed_message self.now.pool.now item) result }
    {
        let (aad, text) = (item.aad.of(self.pool), item.text.of(self.pool));
        let nonces = [
            self.nonce(i, 0),
            self.nonce(i, 1),
            self.nonce(i, 2),
            self.nonce(i, 3),
        ];
        self.key.hold_at(permission, &nonces, aad, text)
    }

    // The rows of the items from index `start` on.
    fn fill_piece(&self, permission: MayCheck, items: &[Item], start: usize, rows: &mut [Row])
        requires within { start + length rows.old ≤ length items.now }
        requires spans { All (ItemIsInPool (length self.now.pool.now)) items.now }
        ensures { (j : ℕ) (item : Item) → j < length rows.old
            → slice_get items.now (start + j) ≡ Some item
            → IsRow self.now.guess self.now.limit self.now.key.now self.now.base_nonce.now
            (start + j) (sealed_message self.now.pool.now item) (slice_index_or rows.new j []) }
    {
        for j in 0..rows.len() {
            rows[j] = self.row(permission, start + j, items[start + j]);
        }
    }

    // The rows of all items, in pieces, each filled by a thread of its own.
    fn fill_pieces<R: Threads + Sync>(&self, rt: &R, items: &[Item], rows: &mut [Row])
        requires count { length items.now ≡ length rows.old }
        requires spans { All (ItemIsInPool (length self.now.pool.now)) items.now }
        ensures { (i : ℕ) (item : Item) → slice_get items.now i ≡ Some item
            → IsRow self.now.guess self.now.limit self.now.key.now self.now.base_nonce.now
            i (sealed_message self.now.pool.now item) (slice_index_or rows.new i []) }
    {
        let permission = MayCheck::on_threads(rt);
        thread::for_each_chunk_mut(
            rt,
            rows,
            piece_size(items),
            &|start, piece| {
                self.fill_piece(permission, items, start, piece);
            },
        );
    }

    /// The rows of all items, at the front of `rows`.
    pub(crate) fn fill<R: Threads + Sync>(&self, rt: &R, items: &[Item], rows: &mut [Row])
        requires room { length items.now ≤ length rows.old }
        requires spans { All (ItemIsInPool (length self.now.pool.now)) items.now }
        ensures { (i : ℕ) (item : Item) → slice_get items.now i ≡ Some item
            → IsRow self.now.guess self.now.limit self.now.key.now self.now.base_nonce.now
            i (sealed_message self.now.pool.now item) (slice_index_or rows.new i []) }
    {
        self.fill_pieces(rt, items, &mut rows[..items.len()]);
    }

    /// The same on the calling thread.
    pub(crate) fn fill_alone(&self, permission: MayCheck, items: &[Item], rows: &mut [Row])
        requires room { length items.now ≤ length rows.old }
        requires spans { All (ItemIsInPool (length self.now.pool.now)) items.now }
        ensures { (i : ℕ) (item : Item) → slice_get items.now i ≡ Some item
            → IsRow self.now.guess self.now.limit self.now.key.now self.now.base_nonce.now
            i (sealed_message self.now.pool.now item) (slice_index_or rows.new i []) }
    {
        self.fill_piece(permission, items, 0, &mut rows[..items.len()]);
    }
}

// The bytes that are hashed before a second thread is worth its start.
const SMALL_WORK: u64 = 65_536;

// How many rows a piece has: all of them, or a quarter where there is much to hash.
fn piece_size(items: &[Item]) -> usize
    ensures { 0 < result }
{
    let work = items.iter().fold(0u64, |work, item| {
        work.saturating_add(u64::from(item.aad.len))
            .saturating_add(u64::from(item.text.len))
    });
    let pieces = if work <= SMALL_WORK { 1 } else { 4 };
    items.len().div_ceil(pieces).max(1)
}
