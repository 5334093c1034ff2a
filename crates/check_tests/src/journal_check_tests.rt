//! Verdicts on the results of small batches.

mod history_rows;
mod live_rows;
mod opening_rows;
mod order_rows;
mod rows;

use self::history_rows::{REFUSALS, STAMPS};
use self::live_rows::{NAMES, TABLES};
use self::opening_rows::{GUESSES, OPENINGS};
use self::order_rows::ORDERS;
use self::rows::{FORMS, Row, SEALS};
use crate::expected::assert_same;
use batch_plans::limits::MOST_INPUT;
use journal_check::{Verdict, check_live_result, check_result};
use request_frames::{read_front, read_live};
use ring_core::Plain;
use std::alloc::Global;
use std::process::Abort;
use std::thread::Threads;

// The verdict on a row's text; none where its batch isn't one.
fn verdict_of<R: Threads>(rt: &R, alloc: Global, row: &Row) -> Option<Verdict> {
    let text = row.result.as_bytes();
    if text.len() > MOST_INPUT {
        return None;
    }
    match read_front(alloc, row.batch.as_bytes()) {
        Ok((plan, _)) => check_result(rt, alloc, &Plain, &plan, text).ok(),
        Err(_) => None,
    }
}

// The same of a batch whose lanes add and retire contexts.
fn live_verdict_of<R: Threads>(rt: &R, alloc: Global, row: &Row) -> Option<Verdict> {
    let text = row.result.as_bytes();
    if text.len() > MOST_INPUT {
        return None;
    }
    match read_live(alloc, row.batch.as_bytes()) {
        Ok(plan) => check_live_result(rt, alloc, &Plain, plan, text).ok(),
        Err(_) => None,
    }
}

// Each row's text gets its verdict.
fn expect_verdicts<R: Threads + Abort>(rt: &R, alloc: Global, rows: &[Row]) {
    for row in rows {
        let verdict = verdict_of(rt, alloc, row);
        assert_same(rt, verdict, Some(row.verdict), row.source);
    }
}

fn expect_live_verdicts<R: Threads + Abort>(rt: &R, alloc: Global, rows: &[Row]) {
    for row in rows {
        let verdict = live_verdict_of(rt, alloc, row);
        assert_same(rt, verdict, Some(row.verdict), row.source);
    }
}

#[test]
fn each_result_of_seals_gets_its_verdict(rt: HostRuntime) {
    expect_verdicts(&rt, rt.alloc(), &SEALS);
}

#[test]
fn each_bad_form_gets_its_verdict(rt: HostRuntime) {
    expect_verdicts(&rt, rt.alloc(), &FORMS);
}

#[test]
fn each_result_of_openings_gets_its_verdict(rt: HostRuntime) {
    expect_verdicts(&rt, rt.alloc(), &OPENINGS);
}

#[test]
fn each_guess_gets_its_verdict(rt: HostRuntime) {
    expect_verdicts(&rt, rt.alloc(), &GUESSES);
}

#[test]
fn each_result_of_refusals_gets_its_verdict(rt: HostRuntime) {
    expect_verdicts(&rt, rt.alloc(), &REFUSALS);
}

#[test]
fn each_history_gets_its_verdict(rt: HostRuntime) {
    expect_verdicts(&rt, rt.alloc(), &STAMPS);
}

#[test]
fn the_first_thing_that_is_wrong_is_told(rt: HostRuntime) {
    expect_verdicts(&rt, rt.alloc(), &ORDERS);
}

#[test]
fn each_table_gets_its_verdict(rt: HostRuntime) {
    expect_live_verdicts(&rt, rt.alloc(), &TABLES);
}

#[test]
fn each_result_with_names_gets_its_verdict(rt: HostRuntime) {
    expect_live_verdicts(&rt, rt.alloc(), &NAMES);
}
