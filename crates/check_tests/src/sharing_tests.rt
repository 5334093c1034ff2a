//! Which batches may be run again.

use context_books::may_run_again;
use request_frames::read_live;
use std::alloc::Global;

struct Row {
    source: &'static str,
    batch: &'static str,
    may: bool,
}

const ROWS: [Row; 8] = [
    Row {
        source: "own: no lane",
        batch: "hpkebatch 2\nshare send 32 1 1 00 base - - - 9\nend\n",
        may: true,
    },
    Row {
        source: "own: one lane seals on two contexts",
        batch: "hpkebatch 2\nshare send 32 1 1 00 base - - - 9\nshare send 32 1 1 01 base - - - 9\nlane\nseal 0 - -\nseal 1 - -\nseal 0 - -\nend\n",
        may: true,
    },
    Row {
        source: "own: two lanes seal on one context",
        batch: "hpkebatch 2\nshare send 32 1 1 00 base - - - 9\nlane\nseal 0 - -\nlane\nexport 0 - 1\nlane\nseal 0 - -\nend\n",
        may: false,
    },
    Row {
        source: "own: two lanes open on one context, and one of them seals on another",
        batch: "hpkebatch 2\nshare recv 32 1 1 00 base - - - 9\nshare send 32 1 1 01 base - - - 9\nlane\nunseal 0 - -\nseal 1 - -\nlane\nunseal 0 - -\nend\n",
        may: true,
    },
    Row {
        source: "own: two lanes seal on a context that isn't there",
        batch: "hpkebatch 2\nlane\nseal 7 - -\nlane\nseal 7 - -\nend\n",
        may: true,
    },
    Row {
        source: "own: one lane adds a context, seals on it and retires it, and another exports",
        batch: "hpkebatch 2\nlane\nadd send 32 1 1 00 base - - - 9\nseal +0 - -\nretire +0\nlane\nexport +0 - 1\nend\n",
        may: true,
    },
    Row {
        source: "own: one lane adds a context, and another seals on it",
        batch: "hpkebatch 2\nlane\nadd send 32 1 1 00 base - - - 9\nlane\nseal +0 - -\nend\n",
        may: false,
    },
    Row {
        source: "own: one lane adds a context and seals on it, and another retires it",
        batch: "hpkebatch 2\nlane\nadd send 32 1 1 00 base - - - 9\nseal +0 - -\nlane\nretire +0\nend\n",
        may: false,
    },
];

// What is told of a row's batch; none where it isn't one.
fn told(alloc: Global, row: &Row) -> Option<bool> {
    let plan = read_live(alloc, row.batch.as_bytes()).ok()?;
    Some(may_run_again(&plan))
}

#[test]
fn batches_that_may_be_run_again_are_told(rt: HostRuntime) {
    for row in &ROWS {
        let source = row.source;
        assert_eq!(rt; told(rt.alloc(), row), Some(row.may), "{source}");
    }
}
