//! Each form of a reply's lines, and replies that are cut short.

use crate::expected::assert_same;
use crate::printable::is_in_range;
use crate::request_frames_tests::answers::{FORMS, POOL, answers, contexts, keys, plan};
use crate::request_frames_tests::expected::{expect_cut_short, expect_whole};
use crate::sinks::sink_of;
use request_frames::{BadBatch, Printed, Reason, Reply, print_bad, print_reply, print_setup};
use std::alloc::Global;
use std::process::Abort;

// Own, by hand: each form of a key line and of a context line once.
const SETUP: &str = "key 0 generated 0102 ab
key 1 secret ff
key 2 peer
key 3 refused exhausted
key 4 refused noinverse
key 5 refused length
key 6 refused form
context 0 shared
context 1 sender 007f
context 2 recipient
context 3 refused nokey
context 4 refused needsecret
context 5 refused noenc
context 6 refused encsize
context 7 refused pskpair
context 8 refused pskextra
context 9 refused pskmissing
";

// Own, by hand: each form of a reply, with the least and the greatest numbers, and no bytes.
const REPLIES: &str = "sealed 0 deadbeef
opened 18446744073709551615 ad
opened 9 -
failed 10
limit
exported beef
refused nocontext
refused role
refused nocipher
refused exportsize
refused pskpair
refused pskextra
refused pskmissing
added
retired
";

// Own, by hand: the greatest numbers of a guess, the greatest lane and stamp of a place, an empty
// lane, empty journals.
const REST: &str = "lane 1
limit
batch 18446744073709551615 4294967295
lane 2
journal 0
0 0 0 1
4294967295 10 9 18446744073709551615
journal 1
journal 2
journal 3
journal 4
journal 5
journal 6
journal 7
journal 8
journal 9
end
";

// Own, by hand: each reason once, with the least and the greatest line.
static BAD: [(u32, Reason, &str); 11] = [
    (1, Reason::Header, "bad 1 header\n"),
    (2, Reason::Word, "bad 2 word\n"),
    (9, Reason::Fields, "bad 9 fields\n"),
    (10, Reason::Number, "bad 10 number\n"),
    (11, Reason::Hex, "bad 11 hex\n"),
    (99, Reason::Range, "bad 99 range\n"),
    (100, Reason::Order, "bad 100 order\n"),
    (256, Reason::Count, "bad 256 count\n"),
    (0, Reason::Size, "bad 0 size\n"),
    (4_294_967_295, Reason::NoEnd, "bad 4294967295 noend\n"),
    (3, Reason::Trailing, "bad 3 trailing\n"),
];

#[test]
fn each_form_is_printed_as_its_line(rt: HostRuntime) {
    let alloc = rt.alloc();
    let plan = plan(&rt, alloc);
    let answers = answers(&rt, alloc);
    let text = format!(in alloc; "hpkebatch 2\n{SETUP}lane 0\n{REPLIES}{REST}");
    let text = text.expect(&rt, "memory");
    expect_whole(&rt, alloc, &plan, &answers, text.as_bytes(), "each form");
    expect_cut_short(&rt, alloc, &plan, &answers, text.as_bytes());
    drop(plan);
    drop(answers);
}

fn expect_set_up(rt: &impl Abort, alloc: Global) {
    let keys = keys(rt, alloc);
    let contexts = contexts(rt, alloc);
    let mut sink = sink_of(rt, alloc, 1_000, 0);
    let printed = print_setup(keys.as_slice(), contexts.as_slice(), &mut sink);
    assert_same(rt, printed, Printed::Whole, "printed");
    assert_same(rt, sink.bytes(), SETUP.as_bytes(), "what is written");
}

fn expect_replies(rt: &impl Abort, alloc: Global) {
    let mut sink = sink_of(rt, alloc, 1_000, 0);
    for reply in &FORMS {
        let can_be_printed = *reply != Reply::Blank && is_in_range(POOL.as_slice(), reply);
        assert!(rt; can_be_printed);
        let printed = print_reply(reply, POOL.as_slice(), &mut sink);
        assert_same(rt, printed, Printed::Whole, "printed");
    }
    assert_same(rt, sink.bytes(), REPLIES.as_bytes(), "what is written");
}

#[test]
fn a_set_up_and_replies_are_printed_by_themselves(rt: HostRuntime) {
    let alloc = rt.alloc();
    expect_set_up(&rt, alloc);
    expect_replies(&rt, alloc);
    let mut failing = sink_of(&rt, alloc, 40, 1);
    let printed = print_reply(&Reply::Limit, POOL.as_slice(), &mut failing);
    assert_same(&rt, printed, Printed::Failed, "printed");
    assert_same(&rt, failing.bytes().len(), 0, "bytes before the failure");
}

// The line is written whole, and nothing of it where the write fails.
fn expect_bad_line(rt: &impl Abort, alloc: Global, bad: &BadBatch, text: &str) {
    let mut sink = sink_of(rt, alloc, 40, 0);
    assert_same(rt, print_bad(bad, &mut sink), Printed::Whole, "printed");
    assert_same(rt, sink.bytes(), text.as_bytes(), "what is written");
    let mut failing = sink_of(rt, alloc, 40, 1);
    let printed = print_bad(bad, &mut failing);
    assert_same(rt, printed, Printed::Failed, "a print that fails");
    assert_same(rt, failing.bytes().len(), 0, "bytes before the failure");
}

#[test]
fn each_bad_batch_is_printed_as_its_line(rt: HostRuntime) {
    for (line, reason, text) in &BAD {
        let bad = BadBatch {
            line: *line,
            reason: *reason,
        };
        expect_bad_line(&rt, rt.alloc(), &bad, text);
    }
}
