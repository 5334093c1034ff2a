//! Tables of verdicts.

ghost use Rattle.std.specs.Prelude.{◌≡◌, ◌≤◌, ◌<◌, ◌↔◌, ℕ, List, [], All, Some, IfOk, IfSome, IsNone, IsTrue, length, slice_get};
ghost use Rattle.call_places.specs.Messages.{SealedMessage, sealed_messages};
ghost use Rattle.call_places.specs.Spans.{ItemIsInPool};
ghost use Rattle.hpke_aead.specs.declared.keys.AeadKey.{AeadKey};
ghost use Rattle.speculative_open.specs.Tables.{OpensAt, IsChecked, verdict_at, row_of, Fits};

use crate::rows::{BLANK, Opener, Row, place};
use aes_gcm::MayCheck;
use call_places::Item;
use hpke_aead::AeadKey;
use std::alloc::{AllocError as OutOfMemory, Global};
use std::marker::Model;
use std::thread;
use std::thread::Threads;

/// Verdicts on the tags of items at the numbers that a guess makes likely. A contract sees the room,
/// the guess, LIMIT and the rows, one an item.
#[derive(Drop)]
pub struct GuessTable {
    guess: u64,
    limit: u64,
    used: usize,
    rows: Vec<Row>,
}

impl Model for GuessTable {
    ghost use Rattle.std.specs.Prelude.{◌≤◌, length, take};
    ghost use Rattle.speculative_open.specs.Tables.{TableView};

    ghost Value = { TableView };

    ghost view = { λ t. record {
      room = length t.rows.items;
      guess = t.guess;
      limit = t.limit;
      rows = take t.used t.rows.items;
    } };

    ghost invariant = { λ t. t.used ≤ length t.rows.items };
}

impl GuessTable {
    /// A table with room for `most` rows, and no row; its guess and its LIMIT are 0 until it is
    /// filled. All the memory that it ever takes is taken here.
    pub fn with_room(alloc: Global, most: usize) -> Result<GuessTable, OutOfMemory>
        ensures { IfOk result (λ t.
            t ≡ record { room = most; guess = 0; limit = 0; rows = [] }) }
    {
        Ok(GuessTable {
            guess: 0,
            limit: 0,
            used: 0,
            rows: vec![in alloc; BLANK; most]?,
        })
    }

    /// Checks item i at the numbers guess + i - k, for k from 0 to min(i, 3), that are at most
    /// `limit`, which is LIMIT. What the table held before is overwritten.
    ///
    /// Each item is checked by one of several threads where there is work enough. It waits for
    /// no lock, and takes no memory.
    pub fn fill<R: Threads + Sync>(
        &mut self,
        rt: &R,
        key: &AeadKey,
        base_nonce: &[u8; 12],
        guess: u64,
        limit: u64,
        pool: &[u8],
        items: &[Item],
    )
        requires room { length items.now ≤ self.old.room }
        requires spans { All (ItemIsInPool (length pool.now)) items.now }
        ensures guess { self.new.guess ≡ guess }
        ensures limit { self.new.limit ≡ limit }
        ensures room { self.new.room ≡ self.old.room }
        ensures rows { length self.new.rows ≡ length items.now }
        ensures fits { Fits self.new key.now base_nonce.now (sealed_messages pool.now items.now) }
    {
        let opener = Opener {
            key,
            base_nonce,
            guess,
            limit,
            pool,
        };
        self.guess = guess;
        self.limit = limit;
        self.used = items.len();
        opener.fill(rt, items, self.rows.as_mut_slice());
    }

    /// Fills the table as [`GuessTable::fill`] does, on the calling thread.
    pub fn fill_alone(
        &mut self,
        permission: MayCheck,
        key: &AeadKey,
        base_nonce: &[u8; 12],
        guess: u64,
        limit: u64,
        pool: &[u8],
        items: &[Item],
    )
        requires room { length items.now ≤ self.old.room }
        requires spans { All (ItemIsInPool (length pool.now)) items.now }
        ensures guess { self.new.guess ≡ guess }
        ensures limit { self.new.limit ≡ limit }
        ensures room { self.new.room ≡ self.old.room }
        ensures rows { length self.new.rows ≡ length items.now }
        ensures fits { Fits self.new key.now base_nonce.now (sealed_messages pool.now items.now) }
    {
        let opener = Opener {
            key,
            base_nonce,
            guess,
            limit,
            pool,
        };
        self.guess = guess;
        self.limit = limit;
        self.used = items.len();
        opener.fill_alone(permission, items, self.rows.as_mut_slice());
    }

    /// The guess: the number that was taken to be due at the first item.
    pub fn guess(&self) -> u64
        ensures { result ≡ self.now.guess }
    {
        self.guess
    }

    /// The verdict on item `i` at number `n`. `None` exactly where the item isn't checked there.
    pub fn look(&self, i: usize, n: u64) -> Option<bool>
        requires row { i < length self.now.rows }
        ensures none { IsNone result ↔ ¬ IsChecked self.now.guess self.now.limit i n }
        ensures some { IfSome result (λ v. v ≡ verdict_at self.now.guess i (row_of self.now i) n) }
        ensures tells { (key : AeadKey) (base_nonce : List ℕ) (items : List SealedMessage)
            (x : SealedMessage) → Fits self.now key base_nonce items
            → slice_get items i ≡ Some x → IfSome result (λ v. IsTrue v ↔ OpensAt key base_nonce n x) }
    {
        let k = place(self.guess, self.limit, i, n)?;
        Some(self.rows[i][k])
    }
}
