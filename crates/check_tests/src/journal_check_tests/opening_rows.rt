//! Results of batches with openings of several messages, and the verdicts on them.

use super::rows::Row;
use journal_check::Verdict;

// An opening of several messages: its guess, and its places in the journal.
pub static OPENINGS: [Row; 8] = [
    Row {
        source: "RFC 9180, A.1.1.1, three messages together",
        batch: "hpkebatch 1\nshare recv 32 1 1 fe0e18c9f024ce43799ae393c7e8fe8fce9d218875e8227b0187c04e7d2ea1fc base 4f6465206f6e2061204772656369616e2055726e - - 9\nlane\nunsealall 0 436f756e742d30 f938558b5d72f1a23810b4be2ab4f84331acc02fc97babc53a52ae8218a355a96d8770ac83d07bea87e13c512a 436f756e742d31 af2d7e9ac9ae7e270f46ba1f975be53c09f8d875bdc8535458c2494e8a6eab251c03d0c22a56b8ca42c2063b85 436f756e742d31 af2d7e9ac9ae7e270f46ba1f975be53c09f8d875bdc8535458c2494e8a6eab251c03d0c22a56b8ca42c2063b84\nend\n",
        result: "hpkebatch 1\ncontext 0 shared\nlane 0\nopened 0 4265617574792069732074727574682c20747275746820626561757479\nfailed 1\nopened 1 4265617574792069732074727574682c20747275746820626561757479\nbatch 0 0\njournal 0\n0 0 0\n0 0 1\n0 0 2\nend\n",
        verdict: Verdict::Legal,
    },
    Row {
        source: "own: one message missed",
        batch: "hpkebatch 1\nshare recv 32 1 1 fe0e18c9f024ce43799ae393c7e8fe8fce9d218875e8227b0187c04e7d2ea1fc base 4f6465206f6e2061204772656369616e2055726e - - 9\nlane\nunsealall 0 436f756e742d30 f938558b5d72f1a23810b4be2ab4f84331acc02fc97babc53a52ae8218a355a96d8770ac83d07bea87e13c512a 436f756e742d31 af2d7e9ac9ae7e270f46ba1f975be53c09f8d875bdc8535458c2494e8a6eab251c03d0c22a56b8ca42c2063b85 436f756e742d31 af2d7e9ac9ae7e270f46ba1f975be53c09f8d875bdc8535458c2494e8a6eab251c03d0c22a56b8ca42c2063b84\nend\n",
        result: "hpkebatch 1\ncontext 0 shared\nlane 0\nopened 0 4265617574792069732074727574682c20747275746820626561757479\nfailed 1\nopened 1 4265617574792069732074727574682c20747275746820626561757479\nbatch 0 1\njournal 0\n0 0 0\n0 0 1\n0 0 2\nend\n",
        verdict: Verdict::Guess { line: 7 },
    },
    Row {
        source: "own: a guess above the number that is due",
        batch: "hpkebatch 1\nshare recv 32 1 1 fe0e18c9f024ce43799ae393c7e8fe8fce9d218875e8227b0187c04e7d2ea1fc base 4f6465206f6e2061204772656369616e2055726e - - 9\nlane\nunsealall 0 436f756e742d30 f938558b5d72f1a23810b4be2ab4f84331acc02fc97babc53a52ae8218a355a96d8770ac83d07bea87e13c512a 436f756e742d31 af2d7e9ac9ae7e270f46ba1f975be53c09f8d875bdc8535458c2494e8a6eab251c03d0c22a56b8ca42c2063b85 436f756e742d31 af2d7e9ac9ae7e270f46ba1f975be53c09f8d875bdc8535458c2494e8a6eab251c03d0c22a56b8ca42c2063b84\nend\n",
        result: "hpkebatch 1\ncontext 0 shared\nlane 0\nopened 0 4265617574792069732074727574682c20747275746820626561757479\nfailed 1\nopened 1 4265617574792069732074727574682c20747275746820626561757479\nbatch 1 0\njournal 0\n0 0 0\n0 0 1\n0 0 2\nend\n",
        verdict: Verdict::Guess { line: 7 },
    },
    Row {
        source: "own: a miss above 4096",
        batch: "hpkebatch 1\nshare recv 32 1 1 fe0e18c9f024ce43799ae393c7e8fe8fce9d218875e8227b0187c04e7d2ea1fc base 4f6465206f6e2061204772656369616e2055726e - - 9\nlane\nunsealall 0 436f756e742d30 f938558b5d72f1a23810b4be2ab4f84331acc02fc97babc53a52ae8218a355a96d8770ac83d07bea87e13c512a 436f756e742d31 af2d7e9ac9ae7e270f46ba1f975be53c09f8d875bdc8535458c2494e8a6eab251c03d0c22a56b8ca42c2063b85 436f756e742d31 af2d7e9ac9ae7e270f46ba1f975be53c09f8d875bdc8535458c2494e8a6eab251c03d0c22a56b8ca42c2063b84\nend\n",
        result: "hpkebatch 1\ncontext 0 shared\nlane 0\nopened 0 4265617574792069732074727574682c20747275746820626561757479\nfailed 1\nopened 1 4265617574792069732074727574682c20747275746820626561757479\nbatch 0 4097\njournal 0\n0 0 0\n0 0 1\n0 0 2\nend\n",
        verdict: Verdict::Form { line: 7 },
    },
    Row {
        source: "own: a guess of 2^64",
        batch: "hpkebatch 1\nshare recv 32 1 1 fe0e18c9f024ce43799ae393c7e8fe8fce9d218875e8227b0187c04e7d2ea1fc base 4f6465206f6e2061204772656369616e2055726e - - 9\nlane\nunsealall 0 436f756e742d30 f938558b5d72f1a23810b4be2ab4f84331acc02fc97babc53a52ae8218a355a96d8770ac83d07bea87e13c512a 436f756e742d31 af2d7e9ac9ae7e270f46ba1f975be53c09f8d875bdc8535458c2494e8a6eab251c03d0c22a56b8ca42c2063b85 436f756e742d31 af2d7e9ac9ae7e270f46ba1f975be53c09f8d875bdc8535458c2494e8a6eab251c03d0c22a56b8ca42c2063b84\nend\n",
        result: "hpkebatch 1\ncontext 0 shared\nlane 0\nopened 0 4265617574792069732074727574682c20747275746820626561757479\nfailed 1\nopened 1 4265617574792069732074727574682c20747275746820626561757479\nbatch 18446744073709551616 0\njournal 0\n0 0 0\n0 0 1\n0 0 2\nend\n",
        verdict: Verdict::Form { line: 7 },
    },
    Row {
        source: "own: six messages, the last two outside their windows",
        batch: "hpkebatch 1\nshare recv 32 1 1 fe0e18c9f024ce43799ae393c7e8fe8fce9d218875e8227b0187c04e7d2ea1fc base 4f6465206f6e2061204772656369616e2055726e - - 9\nlane\nunsealall 0 436f756e742d30 f938558b5d72f1a23810b4be2ab4f84331acc02fc97babc53a52ae8218a355a96d8770ac83d07bea87e13c512b 436f756e742d30 f938558b5d72f1a23810b4be2ab4f84331acc02fc97babc53a52ae8218a355a96d8770ac83d07bea87e13c512b 436f756e742d30 f938558b5d72f1a23810b4be2ab4f84331acc02fc97babc53a52ae8218a355a96d8770ac83d07bea87e13c512b 436f756e742d30 f938558b5d72f1a23810b4be2ab4f84331acc02fc97babc53a52ae8218a355a96d8770ac83d07bea87e13c512b 436f756e742d30 f938558b5d72f1a23810b4be2ab4f84331acc02fc97babc53a52ae8218a355a96d8770ac83d07bea87e13c512b 436f756e742d30 f938558b5d72f1a23810b4be2ab4f84331acc02fc97babc53a52ae8218a355a96d8770ac83d07bea87e13c512a\nend\n",
        result: "hpkebatch 1\ncontext 0 shared\nlane 0\nfailed 0\nfailed 0\nfailed 0\nfailed 0\nfailed 0\nopened 0 4265617574792069732074727574682c20747275746820626561757479\nbatch 0 2\njournal 0\n0 0 0\n0 0 1\n0 0 2\n0 0 3\n0 0 4\n0 0 5\nend\n",
        verdict: Verdict::Legal,
    },
    Row {
        source: "own: six messages, two outside their windows, told as none missed",
        batch: "hpkebatch 1\nshare recv 32 1 1 fe0e18c9f024ce43799ae393c7e8fe8fce9d218875e8227b0187c04e7d2ea1fc base 4f6465206f6e2061204772656369616e2055726e - - 9\nlane\nunsealall 0 436f756e742d30 f938558b5d72f1a23810b4be2ab4f84331acc02fc97babc53a52ae8218a355a96d8770ac83d07bea87e13c512b 436f756e742d30 f938558b5d72f1a23810b4be2ab4f84331acc02fc97babc53a52ae8218a355a96d8770ac83d07bea87e13c512b 436f756e742d30 f938558b5d72f1a23810b4be2ab4f84331acc02fc97babc53a52ae8218a355a96d8770ac83d07bea87e13c512b 436f756e742d30 f938558b5d72f1a23810b4be2ab4f84331acc02fc97babc53a52ae8218a355a96d8770ac83d07bea87e13c512b 436f756e742d30 f938558b5d72f1a23810b4be2ab4f84331acc02fc97babc53a52ae8218a355a96d8770ac83d07bea87e13c512b 436f756e742d30 f938558b5d72f1a23810b4be2ab4f84331acc02fc97babc53a52ae8218a355a96d8770ac83d07bea87e13c512a\nend\n",
        result: "hpkebatch 1\ncontext 0 shared\nlane 0\nfailed 0\nfailed 0\nfailed 0\nfailed 0\nfailed 0\nopened 0 4265617574792069732074727574682c20747275746820626561757479\nbatch 0 0\njournal 0\n0 0 0\n0 0 1\n0 0 2\n0 0 3\n0 0 4\n0 0 5\nend\n",
        verdict: Verdict::Guess { line: 10 },
    },
    Row {
        source: "own: another place parts an opening",
        batch: "hpkebatch 1\nshare recv 32 1 1 fe0e18c9f024ce43799ae393c7e8fe8fce9d218875e8227b0187c04e7d2ea1fc base 4f6465206f6e2061204772656369616e2055726e - - 9\nlane\nunsealall 0 436f756e742d30 f938558b5d72f1a23810b4be2ab4f84331acc02fc97babc53a52ae8218a355a96d8770ac83d07bea87e13c512a 436f756e742d31 af2d7e9ac9ae7e270f46ba1f975be53c09f8d875bdc8535458c2494e8a6eab251c03d0c22a56b8ca42c2063b84\nlane\nunseal 0 436f756e742d30 f938558b5d72f1a23810b4be2ab4f84331acc02fc97babc53a52ae8218a355a96d8770ac83d07bea87e13c512b\nend\n",
        result: "hpkebatch 1\ncontext 0 shared\nlane 0\nopened 0 4265617574792069732074727574682c20747275746820626561757479\nopened 1 4265617574792069732074727574682c20747275746820626561757479\nbatch 0 0\nlane 1\nfailed 1\njournal 0\n0 0 0\n1 0 0\n0 0 1\nend\n",
        verdict: Verdict::Journal { context: 0 },
    },
];

// Guesses, with another lane and without.
pub static GUESSES: [Row; 5] = [
    Row {
        source: "own: a guess before the other lane's place",
        batch: "hpkebatch 1\nshare recv 32 1 1 fe0e18c9f024ce43799ae393c7e8fe8fce9d218875e8227b0187c04e7d2ea1fc base 4f6465206f6e2061204772656369616e2055726e - - 9\nlane\nunsealall 0 436f756e742d31 af2d7e9ac9ae7e270f46ba1f975be53c09f8d875bdc8535458c2494e8a6eab251c03d0c22a56b8ca42c2063b84\nlane\nunseal 0 436f756e742d30 f938558b5d72f1a23810b4be2ab4f84331acc02fc97babc53a52ae8218a355a96d8770ac83d07bea87e13c512a\nend\n",
        result: "hpkebatch 1\ncontext 0 shared\nlane 0\nopened 1 4265617574792069732074727574682c20747275746820626561757479\nbatch 0 1\nlane 1\nopened 0 4265617574792069732074727574682c20747275746820626561757479\njournal 0\n1 0 0\n0 0 0\nend\n",
        verdict: Verdict::Legal,
    },
    Row {
        source: "own: a guess behind it",
        batch: "hpkebatch 1\nshare recv 32 1 1 fe0e18c9f024ce43799ae393c7e8fe8fce9d218875e8227b0187c04e7d2ea1fc base 4f6465206f6e2061204772656369616e2055726e - - 9\nlane\nunsealall 0 436f756e742d31 af2d7e9ac9ae7e270f46ba1f975be53c09f8d875bdc8535458c2494e8a6eab251c03d0c22a56b8ca42c2063b84\nlane\nunseal 0 436f756e742d30 f938558b5d72f1a23810b4be2ab4f84331acc02fc97babc53a52ae8218a355a96d8770ac83d07bea87e13c512a\nend\n",
        result: "hpkebatch 1\ncontext 0 shared\nlane 0\nopened 1 4265617574792069732074727574682c20747275746820626561757479\nbatch 1 0\nlane 1\nopened 0 4265617574792069732074727574682c20747275746820626561757479\njournal 0\n1 0 0\n0 0 0\nend\n",
        verdict: Verdict::Legal,
    },
    Row {
        source: "own: the number of misses of the other guess",
        batch: "hpkebatch 1\nshare recv 32 1 1 fe0e18c9f024ce43799ae393c7e8fe8fce9d218875e8227b0187c04e7d2ea1fc base 4f6465206f6e2061204772656369616e2055726e - - 9\nlane\nunsealall 0 436f756e742d31 af2d7e9ac9ae7e270f46ba1f975be53c09f8d875bdc8535458c2494e8a6eab251c03d0c22a56b8ca42c2063b84\nlane\nunseal 0 436f756e742d30 f938558b5d72f1a23810b4be2ab4f84331acc02fc97babc53a52ae8218a355a96d8770ac83d07bea87e13c512a\nend\n",
        result: "hpkebatch 1\ncontext 0 shared\nlane 0\nopened 1 4265617574792069732074727574682c20747275746820626561757479\nbatch 1 1\nlane 1\nopened 0 4265617574792069732074727574682c20747275746820626561757479\njournal 0\n1 0 0\n0 0 0\nend\n",
        verdict: Verdict::Guess { line: 5 },
    },
    Row {
        source: "own: a guess behind the lane's own place",
        batch: "hpkebatch 1\nshare recv 32 1 1 fe0e18c9f024ce43799ae393c7e8fe8fce9d218875e8227b0187c04e7d2ea1fc base 4f6465206f6e2061204772656369616e2055726e - - 9\nlane\nunseal 0 436f756e742d30 f938558b5d72f1a23810b4be2ab4f84331acc02fc97babc53a52ae8218a355a96d8770ac83d07bea87e13c512a\nunsealall 0 436f756e742d31 af2d7e9ac9ae7e270f46ba1f975be53c09f8d875bdc8535458c2494e8a6eab251c03d0c22a56b8ca42c2063b84\nend\n",
        result: "hpkebatch 1\ncontext 0 shared\nlane 0\nopened 0 4265617574792069732074727574682c20747275746820626561757479\nopened 1 4265617574792069732074727574682c20747275746820626561757479\nbatch 1 0\njournal 0\n0 0 0\n0 1 0\nend\n",
        verdict: Verdict::Legal,
    },
    Row {
        source: "own: a guess before it",
        batch: "hpkebatch 1\nshare recv 32 1 1 fe0e18c9f024ce43799ae393c7e8fe8fce9d218875e8227b0187c04e7d2ea1fc base 4f6465206f6e2061204772656369616e2055726e - - 9\nlane\nunseal 0 436f756e742d30 f938558b5d72f1a23810b4be2ab4f84331acc02fc97babc53a52ae8218a355a96d8770ac83d07bea87e13c512a\nunsealall 0 436f756e742d31 af2d7e9ac9ae7e270f46ba1f975be53c09f8d875bdc8535458c2494e8a6eab251c03d0c22a56b8ca42c2063b84\nend\n",
        result: "hpkebatch 1\ncontext 0 shared\nlane 0\nopened 0 4265617574792069732074727574682c20747275746820626561757479\nopened 1 4265617574792069732074727574682c20747275746820626561757479\nbatch 0 1\njournal 0\n0 0 0\n0 1 0\nend\n",
        verdict: Verdict::Guess { line: 6 },
    },
];
