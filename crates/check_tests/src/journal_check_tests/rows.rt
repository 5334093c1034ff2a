//! Results of small batches, and the verdicts on them.

use journal_check::Verdict;

// A batch, a text that is said to answer it, and the verdict on the text.
pub struct Row {
    pub source: &'static str,
    pub batch: &'static str,
    pub result: &'static str,
    pub verdict: Verdict,
}

// The shortest batch, and two seals on one context.
pub static SEALS: [Row; 11] = [
    Row {
        source: "own: the shortest batch",
        batch: "hpkebatch 1\nend\n",
        result: "hpkebatch 1\nend\n",
        verdict: Verdict::Legal,
    },
    Row {
        source: "RFC 9180, A.1.1.1, sequence numbers 0 and 1",
        batch: "hpkebatch 1\nshare send 32 1 1 fe0e18c9f024ce43799ae393c7e8fe8fce9d218875e8227b0187c04e7d2ea1fc base 4f6465206f6e2061204772656369616e2055726e - - 2\nlane\nseal 0 436f756e742d30 4265617574792069732074727574682c20747275746820626561757479\nseal 0 436f756e742d31 4265617574792069732074727574682c20747275746820626561757479\nend\n",
        result: "hpkebatch 1\ncontext 0 shared\nlane 0\nsealed 0 f938558b5d72f1a23810b4be2ab4f84331acc02fc97babc53a52ae8218a355a96d8770ac83d07bea87e13c512a\nsealed 1 af2d7e9ac9ae7e270f46ba1f975be53c09f8d875bdc8535458c2494e8a6eab251c03d0c22a56b8ca42c2063b84\njournal 0\n0 0 0\n0 1 0\nend\n",
        verdict: Verdict::Legal,
    },
    Row {
        source: "own: a lane against its order",
        batch: "hpkebatch 1\nshare send 32 1 1 fe0e18c9f024ce43799ae393c7e8fe8fce9d218875e8227b0187c04e7d2ea1fc base 4f6465206f6e2061204772656369616e2055726e - - 2\nlane\nseal 0 436f756e742d30 4265617574792069732074727574682c20747275746820626561757479\nseal 0 436f756e742d31 4265617574792069732074727574682c20747275746820626561757479\nend\n",
        result: "hpkebatch 1\ncontext 0 shared\nlane 0\nsealed 0 f938558b5d72f1a23810b4be2ab4f84331acc02fc97babc53a52ae8218a355a96d8770ac83d07bea87e13c512a\nsealed 1 af2d7e9ac9ae7e270f46ba1f975be53c09f8d875bdc8535458c2494e8a6eab251c03d0c22a56b8ca42c2063b84\njournal 0\n0 1 0\n0 0 0\nend\n",
        verdict: Verdict::Journal { context: 0 },
    },
    Row {
        source: "own: a place left out",
        batch: "hpkebatch 1\nshare send 32 1 1 fe0e18c9f024ce43799ae393c7e8fe8fce9d218875e8227b0187c04e7d2ea1fc base 4f6465206f6e2061204772656369616e2055726e - - 2\nlane\nseal 0 436f756e742d30 4265617574792069732074727574682c20747275746820626561757479\nseal 0 436f756e742d31 4265617574792069732074727574682c20747275746820626561757479\nend\n",
        result: "hpkebatch 1\ncontext 0 shared\nlane 0\nsealed 0 f938558b5d72f1a23810b4be2ab4f84331acc02fc97babc53a52ae8218a355a96d8770ac83d07bea87e13c512a\nsealed 1 af2d7e9ac9ae7e270f46ba1f975be53c09f8d875bdc8535458c2494e8a6eab251c03d0c22a56b8ca42c2063b84\njournal 0\n0 0 0\nend\n",
        verdict: Verdict::Journal { context: 0 },
    },
    Row {
        source: "own: a place twice",
        batch: "hpkebatch 1\nshare send 32 1 1 fe0e18c9f024ce43799ae393c7e8fe8fce9d218875e8227b0187c04e7d2ea1fc base 4f6465206f6e2061204772656369616e2055726e - - 2\nlane\nseal 0 436f756e742d30 4265617574792069732074727574682c20747275746820626561757479\nseal 0 436f756e742d31 4265617574792069732074727574682c20747275746820626561757479\nend\n",
        result: "hpkebatch 1\ncontext 0 shared\nlane 0\nsealed 0 f938558b5d72f1a23810b4be2ab4f84331acc02fc97babc53a52ae8218a355a96d8770ac83d07bea87e13c512a\nsealed 1 af2d7e9ac9ae7e270f46ba1f975be53c09f8d875bdc8535458c2494e8a6eab251c03d0c22a56b8ca42c2063b84\njournal 0\n0 0 0\n0 0 0\n0 1 0\nend\n",
        verdict: Verdict::Journal { context: 0 },
    },
    Row {
        source: "own: a lane that isn't there",
        batch: "hpkebatch 1\nshare send 32 1 1 fe0e18c9f024ce43799ae393c7e8fe8fce9d218875e8227b0187c04e7d2ea1fc base 4f6465206f6e2061204772656369616e2055726e - - 2\nlane\nseal 0 436f756e742d30 4265617574792069732074727574682c20747275746820626561757479\nseal 0 436f756e742d31 4265617574792069732074727574682c20747275746820626561757479\nend\n",
        result: "hpkebatch 1\ncontext 0 shared\nlane 0\nsealed 0 f938558b5d72f1a23810b4be2ab4f84331acc02fc97babc53a52ae8218a355a96d8770ac83d07bea87e13c512a\nsealed 1 af2d7e9ac9ae7e270f46ba1f975be53c09f8d875bdc8535458c2494e8a6eab251c03d0c22a56b8ca42c2063b84\njournal 0\n0 0 0\n0 1 0\n1 0 0\nend\n",
        verdict: Verdict::Journal { context: 0 },
    },
    Row {
        source: "own: the last byte changed",
        batch: "hpkebatch 1\nshare send 32 1 1 fe0e18c9f024ce43799ae393c7e8fe8fce9d218875e8227b0187c04e7d2ea1fc base 4f6465206f6e2061204772656369616e2055726e - - 2\nlane\nseal 0 436f756e742d30 4265617574792069732074727574682c20747275746820626561757479\nseal 0 436f756e742d31 4265617574792069732074727574682c20747275746820626561757479\nend\n",
        result: "hpkebatch 1\ncontext 0 shared\nlane 0\nsealed 0 f938558b5d72f1a23810b4be2ab4f84331acc02fc97babc53a52ae8218a355a96d8770ac83d07bea87e13c512a\nsealed 1 af2d7e9ac9ae7e270f46ba1f975be53c09f8d875bdc8535458c2494e8a6eab251c03d0c22a56b8ca42c2063b85\njournal 0\n0 0 0\n0 1 0\nend\n",
        verdict: Verdict::Reply { line: 5 },
    },
    Row {
        source: "own: both replies wrong, and the first is told",
        batch: "hpkebatch 1\nshare send 32 1 1 fe0e18c9f024ce43799ae393c7e8fe8fce9d218875e8227b0187c04e7d2ea1fc base 4f6465206f6e2061204772656369616e2055726e - - 2\nlane\nseal 0 436f756e742d30 4265617574792069732074727574682c20747275746820626561757479\nseal 0 436f756e742d31 4265617574792069732074727574682c20747275746820626561757479\nend\n",
        result: "hpkebatch 1\ncontext 0 shared\nlane 0\nsealed 0 f938558b5d72f1a23810b4be2ab4f84331acc02fc97babc53a52ae8218a355a96d8770ac83d07bea87e13c512b\nsealed 1 af2d7e9ac9ae7e270f46ba1f975be53c09f8d875bdc8535458c2494e8a6eab251c03d0c22a56b8ca42c2063b85\njournal 0\n0 0 0\n0 1 0\nend\n",
        verdict: Verdict::Reply { line: 4 },
    },
    Row {
        source: "own: a wrong journal comes before a wrong reply",
        batch: "hpkebatch 1\nshare send 32 1 1 fe0e18c9f024ce43799ae393c7e8fe8fce9d218875e8227b0187c04e7d2ea1fc base 4f6465206f6e2061204772656369616e2055726e - - 2\nlane\nseal 0 436f756e742d30 4265617574792069732074727574682c20747275746820626561757479\nseal 0 436f756e742d31 4265617574792069732074727574682c20747275746820626561757479\nend\n",
        result: "hpkebatch 1\ncontext 0 shared\nlane 0\nsealed 0 f938558b5d72f1a23810b4be2ab4f84331acc02fc97babc53a52ae8218a355a96d8770ac83d07bea87e13c512b\nsealed 1 af2d7e9ac9ae7e270f46ba1f975be53c09f8d875bdc8535458c2494e8a6eab251c03d0c22a56b8ca42c2063b84\njournal 0\n0 1 0\n0 0 0\nend\n",
        verdict: Verdict::Journal { context: 0 },
    },
    Row {
        source: "RFC 9180, A.1.1.1, with lane 1 first",
        batch: "hpkebatch 1\nshare send 32 1 1 fe0e18c9f024ce43799ae393c7e8fe8fce9d218875e8227b0187c04e7d2ea1fc base 4f6465206f6e2061204772656369616e2055726e - - 2\nlane\nseal 0 436f756e742d31 4265617574792069732074727574682c20747275746820626561757479\nlane\nseal 0 436f756e742d30 4265617574792069732074727574682c20747275746820626561757479\nend\n",
        result: "hpkebatch 1\ncontext 0 shared\nlane 0\nsealed 1 af2d7e9ac9ae7e270f46ba1f975be53c09f8d875bdc8535458c2494e8a6eab251c03d0c22a56b8ca42c2063b84\nlane 1\nsealed 0 f938558b5d72f1a23810b4be2ab4f84331acc02fc97babc53a52ae8218a355a96d8770ac83d07bea87e13c512a\njournal 0\n1 0 0\n0 0 0\nend\n",
        verdict: Verdict::Legal,
    },
    Row {
        source: "own: the same replies, with lane 0 first",
        batch: "hpkebatch 1\nshare send 32 1 1 fe0e18c9f024ce43799ae393c7e8fe8fce9d218875e8227b0187c04e7d2ea1fc base 4f6465206f6e2061204772656369616e2055726e - - 2\nlane\nseal 0 436f756e742d31 4265617574792069732074727574682c20747275746820626561757479\nlane\nseal 0 436f756e742d30 4265617574792069732074727574682c20747275746820626561757479\nend\n",
        result: "hpkebatch 1\ncontext 0 shared\nlane 0\nsealed 1 af2d7e9ac9ae7e270f46ba1f975be53c09f8d875bdc8535458c2494e8a6eab251c03d0c22a56b8ca42c2063b84\nlane 1\nsealed 0 f938558b5d72f1a23810b4be2ab4f84331acc02fc97babc53a52ae8218a355a96d8770ac83d07bea87e13c512a\njournal 0\n0 0 0\n1 0 0\nend\n",
        verdict: Verdict::Reply { line: 4 },
    },
];

// Lines that are missing or have another form.
pub static FORMS: [Row; 8] = [
    Row {
        source: "own: no result",
        batch: "hpkebatch 1\nshare send 32 1 1 fe0e18c9f024ce43799ae393c7e8fe8fce9d218875e8227b0187c04e7d2ea1fc base 4f6465206f6e2061204772656369616e2055726e - - 2\nlane\nseal 0 436f756e742d30 4265617574792069732074727574682c20747275746820626561757479\nseal 0 436f756e742d31 4265617574792069732074727574682c20747275746820626561757479\nend\n",
        result: "",
        verdict: Verdict::Form { line: 1 },
    },
    Row {
        source: "own: the other version",
        batch: "hpkebatch 1\nshare send 32 1 1 fe0e18c9f024ce43799ae393c7e8fe8fce9d218875e8227b0187c04e7d2ea1fc base 4f6465206f6e2061204772656369616e2055726e - - 2\nlane\nseal 0 436f756e742d30 4265617574792069732074727574682c20747275746820626561757479\nseal 0 436f756e742d31 4265617574792069732074727574682c20747275746820626561757479\nend\n",
        result: "hpkebatch 2\ncontext 0 shared\nlane 0\nsealed 0 f938558b5d72f1a23810b4be2ab4f84331acc02fc97babc53a52ae8218a355a96d8770ac83d07bea87e13c512a\nsealed 1 af2d7e9ac9ae7e270f46ba1f975be53c09f8d875bdc8535458c2494e8a6eab251c03d0c22a56b8ca42c2063b84\njournal 0\n0 0 0\n0 1 0\nend\n",
        verdict: Verdict::Form { line: 1 },
    },
    Row {
        source: "own: no line feed at the end",
        batch: "hpkebatch 1\nshare send 32 1 1 fe0e18c9f024ce43799ae393c7e8fe8fce9d218875e8227b0187c04e7d2ea1fc base 4f6465206f6e2061204772656369616e2055726e - - 2\nlane\nseal 0 436f756e742d30 4265617574792069732074727574682c20747275746820626561757479\nseal 0 436f756e742d31 4265617574792069732074727574682c20747275746820626561757479\nend\n",
        result: "hpkebatch 1\ncontext 0 shared\nlane 0\nsealed 0 f938558b5d72f1a23810b4be2ab4f84331acc02fc97babc53a52ae8218a355a96d8770ac83d07bea87e13c512a\nsealed 1 af2d7e9ac9ae7e270f46ba1f975be53c09f8d875bdc8535458c2494e8a6eab251c03d0c22a56b8ca42c2063b84\njournal 0\n0 0 0\n0 1 0\nend",
        verdict: Verdict::Form { line: 9 },
    },
    Row {
        source: "own: a line behind the end",
        batch: "hpkebatch 1\nshare send 32 1 1 fe0e18c9f024ce43799ae393c7e8fe8fce9d218875e8227b0187c04e7d2ea1fc base 4f6465206f6e2061204772656369616e2055726e - - 2\nlane\nseal 0 436f756e742d30 4265617574792069732074727574682c20747275746820626561757479\nseal 0 436f756e742d31 4265617574792069732074727574682c20747275746820626561757479\nend\n",
        result: "hpkebatch 1\ncontext 0 shared\nlane 0\nsealed 0 f938558b5d72f1a23810b4be2ab4f84331acc02fc97babc53a52ae8218a355a96d8770ac83d07bea87e13c512a\nsealed 1 af2d7e9ac9ae7e270f46ba1f975be53c09f8d875bdc8535458c2494e8a6eab251c03d0c22a56b8ca42c2063b84\njournal 0\n0 0 0\n0 1 0\nend\nend\n",
        verdict: Verdict::Form { line: 10 },
    },
    Row {
        source: "own: a byte behind the end",
        batch: "hpkebatch 1\nshare send 32 1 1 fe0e18c9f024ce43799ae393c7e8fe8fce9d218875e8227b0187c04e7d2ea1fc base 4f6465206f6e2061204772656369616e2055726e - - 2\nlane\nseal 0 436f756e742d30 4265617574792069732074727574682c20747275746820626561757479\nseal 0 436f756e742d31 4265617574792069732074727574682c20747275746820626561757479\nend\n",
        result: "hpkebatch 1\ncontext 0 shared\nlane 0\nsealed 0 f938558b5d72f1a23810b4be2ab4f84331acc02fc97babc53a52ae8218a355a96d8770ac83d07bea87e13c512a\nsealed 1 af2d7e9ac9ae7e270f46ba1f975be53c09f8d875bdc8535458c2494e8a6eab251c03d0c22a56b8ca42c2063b84\njournal 0\n0 0 0\n0 1 0\nend\nx",
        verdict: Verdict::Form { line: 10 },
    },
    Row {
        source: "own: a leading zero in a journal",
        batch: "hpkebatch 1\nshare send 32 1 1 fe0e18c9f024ce43799ae393c7e8fe8fce9d218875e8227b0187c04e7d2ea1fc base 4f6465206f6e2061204772656369616e2055726e - - 2\nlane\nseal 0 436f756e742d30 4265617574792069732074727574682c20747275746820626561757479\nseal 0 436f756e742d31 4265617574792069732074727574682c20747275746820626561757479\nend\n",
        result: "hpkebatch 1\ncontext 0 shared\nlane 0\nsealed 0 f938558b5d72f1a23810b4be2ab4f84331acc02fc97babc53a52ae8218a355a96d8770ac83d07bea87e13c512a\nsealed 1 af2d7e9ac9ae7e270f46ba1f975be53c09f8d875bdc8535458c2494e8a6eab251c03d0c22a56b8ca42c2063b84\njournal 0\n0 0 0\n0 01 0\nend\n",
        verdict: Verdict::Form { line: 8 },
    },
    Row {
        source: "own: a stamp in version 1",
        batch: "hpkebatch 1\nshare send 32 1 1 fe0e18c9f024ce43799ae393c7e8fe8fce9d218875e8227b0187c04e7d2ea1fc base 4f6465206f6e2061204772656369616e2055726e - - 2\nlane\nseal 0 436f756e742d30 4265617574792069732074727574682c20747275746820626561757479\nseal 0 436f756e742d31 4265617574792069732074727574682c20747275746820626561757479\nend\n",
        result: "hpkebatch 1\ncontext 0 shared\nlane 0\nsealed 0 f938558b5d72f1a23810b4be2ab4f84331acc02fc97babc53a52ae8218a355a96d8770ac83d07bea87e13c512a\nsealed 1 af2d7e9ac9ae7e270f46ba1f975be53c09f8d875bdc8535458c2494e8a6eab251c03d0c22a56b8ca42c2063b84\njournal 0\n0 0 0 0\n0 1 0 1\nend\n",
        verdict: Verdict::Form { line: 7 },
    },
    Row {
        source: "own: a number above 65535",
        batch: "hpkebatch 1\nshare send 32 1 1 fe0e18c9f024ce43799ae393c7e8fe8fce9d218875e8227b0187c04e7d2ea1fc base 4f6465206f6e2061204772656369616e2055726e - - 2\nlane\nseal 0 436f756e742d30 4265617574792069732074727574682c20747275746820626561757479\nseal 0 436f756e742d31 4265617574792069732074727574682c20747275746820626561757479\nend\n",
        result: "hpkebatch 1\ncontext 0 shared\nlane 0\nsealed 0 f938558b5d72f1a23810b4be2ab4f84331acc02fc97babc53a52ae8218a355a96d8770ac83d07bea87e13c512a\nsealed 1 af2d7e9ac9ae7e270f46ba1f975be53c09f8d875bdc8535458c2494e8a6eab251c03d0c22a56b8ca42c2063b84\njournal 0\n0 0 0\n0 1 65536\nend\n",
        verdict: Verdict::Form { line: 8 },
    },
];
