//! Who fills a table: several threads, or the caller alone.

ghost use Rattle.std.specs.Prelude.{◌≡◌, ◌≤◌, All, length};
ghost use Rattle.std.specs.Thread.{IsSync};
ghost use Rattle.call_places.specs.Messages.{sealed_messages};
ghost use Rattle.call_places.specs.Spans.{ItemIsInPool};
ghost use Rattle.speculative_open.specs.Tables.{Fits};

use crate::table::GuessTable;
use aes_gcm::MayCheck;
use call_places::Item;
use hpke_aead::AeadKey;
use std::thread::Threads;

/// Who checks the tags of a plan, and fills the tables of its openings.
///
/// Code that is generic over a crew does the same with threads and with none, and gives the same.
pub trait Crew {
    // What its work takes: that threads can share what they are started by.
    ghost ready: { Self → Type 0 };

    /// Leave to check tags.
    fn permission(&self) -> MayCheck;

    /// Fills a table, as [`GuessTable::fill`] says.
    fn fill(
        &self,
        table: &mut GuessTable,
        key: &AeadKey,
        base_nonce: &[u8; 12],
        guess: u64,
        limit: u64,
        pool: &[u8],
        items: &[Item],
    )
        requires ready { ready self.now }
        requires room { length items.now ≤ table.old.room }
        requires spans { All (ItemIsInPool (length pool.now)) items.now }
        ensures guess { table.new.guess ≡ guess }
        ensures limit { table.new.limit ≡ limit }
        ensures room { table.new.room ≡ table.old.room }
        ensures rows { length table.new.rows ≡ length items.now }
        ensures fits { Fits table.new key.now base_nonce.now (sealed_messages pool.now items.now) };
}

/// Threads of a runtime, where there is work enough for several.
#[derive(Clone, Copy)]
pub struct OnThreads<'a, R: Threads + Sync> {
    rt: &'a R,
}

impl<'a, R: Threads + Sync> OnThreads<'a, R> {
    /// The threads that this runtime may start.
    pub fn new(rt: &'a R) -> OnThreads<'a, R>
        ensures { IsSync R.row }
    {
        OnThreads { rt }
    }
}

impl<R: Threads + Sync> Crew for OnThreads<'_, R> {
    ghost use Rattle.std.specs.Thread.{IsSync};

    ghost ready = { λ _. IsSync R.row };

    fn permission(&self) -> MayCheck {
        MayCheck::on_threads(self.rt)
    }

    fn fill(
        &self,
        table: &mut GuessTable,
        key: &AeadKey,
        base_nonce: &[u8; 12],
        guess: u64,
        limit: u64,
        pool: &[u8],
        items: &[Item],
    ) {
        table.fill(self.rt, key, base_nonce, guess, limit, pool, items);
    }
}

/// The calling thread alone, for a library that has no runtime.
#[derive(Clone, Copy)]
pub struct Alone {
    permission: MayCheck,
}

impl Alone {
    /// The caller, who may check tags.
    pub fn new(permission: MayCheck) -> Alone {
        Alone { permission }
    }
}

impl Crew for Alone {
    ghost use Rattle.std.specs.Prelude.{⊤};

    ghost ready = { λ _. ⊤ };

    fn permission(&self) -> MayCheck {
        self.permission
    }

    fn fill(
        &self,
        table: &mut GuessTable,
        key: &AeadKey,
        base_nonce: &[u8; 12],
        guess: u64,
        limit: u64,
        pool: &[u8],
        items: &[Item],
    ) {
        let permission = self.permission;
        table.fill_alone(permission, key, base_nonce, guess, limit, pool, items);
    }
}
