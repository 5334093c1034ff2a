//! The lock: making it, a turn at it, and its close.

ghost use Rattle.std.specs.Prelude.{◌≡◌, ◌+◌, ◌<◌, ◌≤◌, ◌++◌, [], List, Some, IfOk, All, length, vec_capacity};
ghost use Rattle.call_places.specs.declared.entries.Entry.{Entry};
ghost use Rattle.call_places.specs.Orders.{last_of};
ghost use Rattle.turn_lock.specs.Passes.{IsHeldBy, AddedByOthers, MayAdd, next_after, fresh_from, AllOf, IsShown, NoOthers};
ghost use Rattle.turn_lock.specs.Seats.{next_from, MayTake, HasTried};
ghost use Rattle.turn_lock.specs.Steps.{first_view, TookTicket};

use crate::held::Held;
use crate::pass_list::PassList;
use crate::passes::Pass;
use crate::rules::{About, Advance, Deal, Gather, Look, Mark, Ticket, Tickets};
use crate::views::View;
use atomic_table::{Seat, Table};
use call_places::Listed;
use std::alloc::{AllocError as OutOfMemory, Global};
use std::hint;
use std::marker::Model;
use std::snapshot::Snapshot;
use std::sync::Wait;

// The words of the table: whose turn it is, the ticket that is given out next, and a mark.
const TURN: usize = 0;

const TICKET: usize = 1;

const SLEEPERS: usize = 2;

// The mark: nobody sleeps, or somebody may.
const AWAKE: u64 = 0;

const ASLEEP: u64 = 1;

// The slot of the table, which has the value while nobody holds it.
const VALUE: usize = 0;

// So many looks at the turn are cheaper than a sleep.
const LOOKS: u32 = 256;

/// A lock round one value. Contracts see which lock it is, with the terms of its value, which never
/// change, and how many passes it was made with.
///
/// Threads share it by reference where the value may be sent between threads, and a [`Pass`] may
/// always be sent.
#[derive(Drop)]
pub struct TurnLock<V: Listed> {
    table: Table<Option<V>, View, About<V>, Tickets, Global>,
}

impl<V: Listed> Model for TurnLock<V> {
    ghost use Rattle.std.specs.Prelude.{◌≡◌, ◌<◌};
    ghost use Rattle.turn_lock.specs.Passes.{LockView};

    ghost Value = { LockView };

    ghost view = { λ l. record {
      lock = record {
        table = l.table.shared.table_id;
        terms = V.terms l.table.shared.key.first.value;
      };
      passes = l.table.shared.key.passes;
    } };

    ghost invariant = { λ l. (l.table.shared.table_id.words ≡ 3)
        × (l.table.shared.table_id.slots ≡ 1) × (0 < l.table.shared.key.passes) };
}

impl<V: Listed> TurnLock<V> {
    /// A lock round a value that has no entries, and its passes, numbered from 0.
    ///
    /// All the memory that the lock ever takes is taken here. Where there is none, the value is
    /// dropped.
    pub fn new(alloc: Global, value: V, passes: u32) -> Result<(TurnLock<V>, PassList), OutOfMemory>
    where
        V: Drop,
        requires empty { V.entries value ≡ [] }
        requires passes { (0 < passes) × (passes < 65536) }
        ensures terms { IfOk result (λ r. r.0.lock.terms ≡ V.terms value) }
        ensures count { IfOk result (λ r. (r.0.passes ≡ passes) × (r.1.made ≡ passes)) }
        ensures passes { IfOk result (λ r. r.1.passes ≡ fresh_from r.0.lock 0 passes) }
    {
        let mut list = Vec::with_capacity(alloc, passes as usize)?;
        let about = About {
            passes: u64::from(passes),
            first: Snapshot::of(&value),
        };
        let mut slots = Vec::new(alloc);
        slots.push(Some(value))?;
        let Ok((table, seat)) = Table::<Option<V>, View, About<V>, Tickets, Global>::new(
            alloc,
            &[0, 0, AWAKE],
            slots,
            &about,
        ) else {
            return Err(OutOfMemory);
        };
        let lock = TurnLock { table };
        lock.deal(seat, &mut list, passes);
        let list = PassList {
            passes: list,
            made: passes as usize,
        };
        Ok((lock, list))
    }

    // Makes the passes, of which the first has the first seat.
    fn deal(&self, mut seat: Seat<Option<V>, View>, list: &mut Vec<Pass>, passes: u32)
        requires lock { (seat.table_id ≡ self.now.lock.table) × (self.now.passes ≡ passes) }
        requires seat { seat.me ≡ (first_view self.now.lock.terms, []) }
        requires list { (list.old.items ≡ []) × (passes ≤ vec_capacity list.old) × (0 < passes) }
        ensures { (list.new.items ≡ fresh_from self.now.lock 0 passes)
            × (passes ≤ vec_capacity list.new) }
    {
        for number in 1..passes {
            let badge = self.table.shared.split_seat::<Deal>(&mut seat).into_badge();
            list.push_reserved(Pass::fresh(badge, number));
        }
        list.push_reserved(Pass::fresh(seat.into_badge(), 0));
        list.rotate_right(1);
    }

    /// Waits until nobody has the turn, takes the ticket of the next one, and takes the value.
    ///
    /// The entries that came since the pass's last turn are other passes' alone. How long it waits
    /// is up to them: a turn ends only where its holder leaves. It looks some times, and then sleeps.
    pub fn enter<R: Wait>(&self, rt: &R, pass: Pass) -> Held<V>
        requires lock { pass.lock ≡ self.now.lock }
        requires turns { pass.turns < 4294967295 }
        ensures pass { IsHeldBy result pass }
        ensures seen { result.seen ≡ V.entries result.value }
        ensures others { AddedByOthers pass.number pass.seen (V.entries result.value) }
        ensures terms { V.terms result.value ≡ self.now.lock.terms }
    {
        let Pass {
            badge,
            number,
            turns,
            next_call,
        } = pass;
        let mut seat: Seat<Option<V>, View> = badge.into_seat();
        let ticket = self.take_ticket(rt, &mut seat);
        let shared = &self.table.shared;
        for _ in rt.forever() {
            if shared.load::<Look>(&mut seat, TURN) == ticket {
                match shared.exchange(&mut seat, VALUE, None) {
                    Some(value) => {
                        return Held {
                            seat,
                            ticket,
                            number,
                            turns,
                            next_call,
                            value,
                        };
                    }
                    None => unreachable!(),
                }
            }
        }
        unreachable!()
    }

    // Takes the ticket that is given out next, where it is the turn: so nobody has the value, and its
    // own turn begins at once.
    fn try_ticket(&self, seat: &mut Seat<Option<V>, View>) -> Option<u64>
        requires table { seat.old.table_id ≡ self.now.lock.table }
        requires seat { MayTake seat.old.me }
        ensures table { seat.new.table_id ≡ seat.old.table_id }
        ensures tried { HasTried seat.old.me seat.new.me result }
    {
        let shared = &self.table.shared;
        let turn = shared.peek(TURN);
        if shared.peek(TICKET) != turn {
            return None;
        }
        let next = turn.wrapping_add(1);
        if shared.compare_exchange::<Ticket>(seat, TICKET, turn, next) == turn {
            Some(turn)
        } else {
            None
        }
    }

    // Tries some times, since a turn is short.
    fn look(&self, seat: &mut Seat<Option<V>, View>) -> Option<u64>
        requires table { seat.old.table_id ≡ self.now.lock.table }
        requires seat { MayTake seat.old.me }
        ensures table { seat.new.table_id ≡ seat.old.table_id }
        ensures tried { HasTried seat.old.me seat.new.me result }
    {
        for _ in 0..LOOKS {
            let ticket = self.try_ticket(seat);
            if ticket.is_some() {
                return ticket;
            }
            hint::spin_loop();
        }
        None
    }

    // Takes a ticket, and sleeps between its looks.
    //
    // It marks that it sleeps before it looks for the last time. So whoever had the turn then finds
    // the mark when it leaves, and wakes a sleeper; where that was before the sleep, `park` finds
    // another mark and returns. Who is woken marks again, for those who sleep on.
    fn take_ticket<R: Wait>(&self, rt: &R, seat: &mut Seat<Option<V>, View>) -> u64
        requires table { seat.old.table_id ≡ self.now.lock.table }
        requires seat { MayTake seat.old.me }
        ensures table { seat.new.table_id ≡ seat.old.table_id }
        ensures took { TookTicket seat.old.me result seat.new.me }
    {
        if let Some(ticket) = self.look(seat) {
            return ticket;
        }
        let shared = &self.table.shared;
        for _ in rt.forever() {
            shared.store::<Mark>(seat, SLEEPERS, ASLEEP);
            if let Some(ticket) = self.look(seat) {
                return ticket;
            }
            shared.park(rt, SLEEPERS, ASLEEP as u32);
        }
        unreachable!()
    }

    // Wakes one of those who sleep, where somebody may. Until it looks or sleeps again, nobody else
    // need be woken.
    fn wake(&self, seat: &mut Seat<Option<V>, View>)
        requires { seat.old.table_id ≡ self.now.lock.table }
        ensures { (seat.new.table_id ≡ seat.old.table_id) × (seat.new.me ≡ seat.old.me) }
    {
        let shared = &self.table.shared;
        if shared.peek(SLEEPERS) == ASLEEP && shared.swap::<Mark>(seat, SLEEPERS, AWAKE) == ASLEEP {
            shared.wake_one(SLEEPERS);
        }
    }

    /// Puts the value back, and ends the turn. It waits for nobody.
    ///
    /// The holder may have added entries at the end: those of its own pass, whose places rise, from
    /// the pass's next call on. A call that has an entry is over: the next call is one above it.
    pub fn leave(&self, held: Held<V>) -> Pass
        requires lock { held.lock ≡ self.now.lock }
        requires terms { V.terms held.value ≡ self.now.lock.terms }
        requires added { (added : List Entry)
            × MayAdd held.number held.next_call held.seen (V.entries held.value) added }
        ensures pass { (result.lock ≡ held.lock) × (result.number ≡ held.number) }
        ensures seen { result.seen ≡ V.entries held.value }
        ensures turns { result.turns ≡ held.turns + 1 }
        ensures next_call { (added : List Entry) → V.entries held.value ≡ held.seen ++ added
            → result.next_call ≡ next_after held.next_call added }
    {
        let Held {
            mut seat,
            ticket,
            number,
            turns,
            next_call,
            value,
        } = held;
        let next_call = next_call_of(&value, number, next_call);
        let shared = &self.table.shared;
        match shared.exchange(&mut seat, VALUE, Some(value)) {
            None => {}
            Some(_) => unreachable!(),
        }
        shared.store::<Advance>(&mut seat, TURN, ticket + 1);
        self.wake(&mut seat);
        Pass {
            badge: seat.into_badge(),
            number,
            turns: turns + 1,
            next_call,
        }
    }

    /// The value, once every pass has come back. It waits for nobody.
    ///
    /// Its entries begin with what each pass has seen. In each lane they are the own entries of the
    /// pass with this number, all of which it has seen; no other lane has an entry.
    pub fn close(self, passes: PassList) -> V
        requires lock { AllOf self.lock passes.passes }
        requires all { length passes.passes ≡ self.passes }
        ensures terms { V.terms result ≡ self.lock.terms }
        ensures shown { All (IsShown (V.entries result)) passes.passes }
        ensures others { NoOthers (V.entries result) passes.passes }
    {
        let TurnLock { table } = self;
        let PassList {
            mut passes,
            made: _,
        } = passes;
        let Some(first) = passes.pop() else {
            unreachable!()
        };
        let mut seat: Seat<Option<V>, View> = first.into_seat();
        while let Some(pass) = passes.pop() {
            table
                .shared
                .join_seat::<Gather>(&mut seat, pass.into_seat());
        }
        let mut closed = table.close_with(seat);
        let value = closed.take(VALUE);
        closed.free();
        match value {
            Some(value) => value,
            None => unreachable!(),
        }
    }
}

// The next call of a pass that held this value, by the last entry: `next_after` of what was added.
fn next_call_of<V: Listed>(value: &V, number: u32, next_call: u32) -> u32
    requires { (e : Entry) → last_of (V.entries value.now) ≡ Some e → e.place.lane ≡ number
        → next_call ≤ e.place.call → e.place.call < 4294967295 }
    ensures { result ≡ next_from number next_call (last_of (V.entries value.now)) }
{
    match value.last_entry() {
        Some(entry) if entry.place.lane == number && entry.place.call >= next_call => {
            entry.place.call + 1
        }
        _ => next_call,
    }
}
