//! Results with two things wrong at once, and the one that is told; and lines without their form in
//! version 2.

use super::rows::Row;
use journal_check::Verdict;

// A key that is refused, a context that seals and one that opens. Lane 0 seals a text, and opens two
// messages of RFC 9180, A.1.1.1; lane 1 seals another, and opens the second one too late.
const BATCH: &str =
    "hpkebatch 2\npeer -\nshare send 32 1 1 fe0e18c9f024ce43799ae393c7e8fe8fce9d218875e8227b0187c04e7d2ea1fc base 4f6465206f6e2061204772656369616e2055726e - - 9\nshare recv 32 1 1 fe0e18c9f024ce43799ae393c7e8fe8fce9d218875e8227b0187c04e7d2ea1fc base 4f6465206f6e2061204772656369616e2055726e - - 9\nlane\nseal 0 436f756e742d30 4265617574792069732074727574682c20747275746820626561757479\nunsealall 1 436f756e742d30 f938558b5d72f1a23810b4be2ab4f84331acc02fc97babc53a52ae8218a355a96d8770ac83d07bea87e13c512a 436f756e742d31 af2d7e9ac9ae7e270f46ba1f975be53c09f8d875bdc8535458c2494e8a6eab251c03d0c22a56b8ca42c2063b84\nlane\nseal 0 436f756e742d31 4265617574792069732074727574682c20747275746820626561757479\nunsealall 1 436f756e742d31 af2d7e9ac9ae7e270f46ba1f975be53c09f8d875bdc8535458c2494e8a6eab251c03d0c22a56b8ca42c2063b84\nend\n";

pub static ORDERS: [Row; 16] = [
    Row {
        source: "own: each lane's opening, and one history",
        batch: BATCH,
        result: "hpkebatch 2\nkey 0 refused length\ncontext 0 shared\ncontext 1 shared\nlane 0\nsealed 0 f938558b5d72f1a23810b4be2ab4f84331acc02fc97babc53a52ae8218a355a96d8770ac83d07bea87e13c512a\nopened 0 4265617574792069732074727574682c20747275746820626561757479\nopened 1 4265617574792069732074727574682c20747275746820626561757479\nbatch 0 0\nlane 1\nsealed 1 af2d7e9ac9ae7e270f46ba1f975be53c09f8d875bdc8535458c2494e8a6eab251c03d0c22a56b8ca42c2063b84\nfailed 2\nbatch 2 0\njournal 0\n0 0 0 0\n1 0 0 1\njournal 1\n0 1 0 2\n0 1 1 3\n1 1 0 4\nend\n",
        verdict: Verdict::Legal,
    },
    Row {
        source: "own: stamps that are no history come before a wrong reply",
        batch: BATCH,
        result: "hpkebatch 2\nkey 0 refused length\ncontext 0 shared\ncontext 1 shared\nlane 0\nsealed 0 f938558b5d72f1a23810b4be2ab4f84331acc02fc97babc53a52ae8218a355a96d8770ac83d07bea87e13c512a\nopened 0 4265617574792069732074727574682c20747275746820626561757479\nopened 1 4265617574792069732074727574682c20747275746820626561757479\nbatch 0 0\nlane 1\nsealed 1 af2d7e9ac9ae7e270f46ba1f975be53c09f8d875bdc8535458c2494e8a6eab251c03d0c22a56b8ca42c2063b84\nfailed 1\nbatch 2 0\njournal 0\n0 0 0 0\n1 0 0 1\njournal 1\n0 1 0 2\n0 1 1 3\n1 1 0 5\nend\n",
        verdict: Verdict::Stamps,
    },
    Row {
        source: "own: stamps that are no history come before a wrong guess",
        batch: BATCH,
        result: "hpkebatch 2\nkey 0 refused length\ncontext 0 shared\ncontext 1 shared\nlane 0\nsealed 0 f938558b5d72f1a23810b4be2ab4f84331acc02fc97babc53a52ae8218a355a96d8770ac83d07bea87e13c512a\nopened 0 4265617574792069732074727574682c20747275746820626561757479\nopened 1 4265617574792069732074727574682c20747275746820626561757479\nbatch 1 0\nlane 1\nsealed 1 af2d7e9ac9ae7e270f46ba1f975be53c09f8d875bdc8535458c2494e8a6eab251c03d0c22a56b8ca42c2063b84\nfailed 2\nbatch 2 0\njournal 0\n0 0 0 0\n1 0 0 1\njournal 1\n0 1 0 2\n0 1 1 3\n1 1 0 5\nend\n",
        verdict: Verdict::Stamps,
    },
    Row {
        source: "own: a wrong reply comes before a wrong guess of an earlier line",
        batch: BATCH,
        result: "hpkebatch 2\nkey 0 refused length\ncontext 0 shared\ncontext 1 shared\nlane 0\nsealed 0 f938558b5d72f1a23810b4be2ab4f84331acc02fc97babc53a52ae8218a355a96d8770ac83d07bea87e13c512a\nopened 0 4265617574792069732074727574682c20747275746820626561757479\nopened 1 4265617574792069732074727574682c20747275746820626561757479\nbatch 1 0\nlane 1\nsealed 1 af2d7e9ac9ae7e270f46ba1f975be53c09f8d875bdc8535458c2494e8a6eab251c03d0c22a56b8ca42c2063b84\nfailed 1\nbatch 2 0\njournal 0\n0 0 0 0\n1 0 0 1\njournal 1\n0 1 0 2\n0 1 1 3\n1 1 0 4\nend\n",
        verdict: Verdict::Reply { line: 12 },
    },
    Row {
        source: "own: two wrong guesses, and the first is told",
        batch: BATCH,
        result: "hpkebatch 2\nkey 0 refused length\ncontext 0 shared\ncontext 1 shared\nlane 0\nsealed 0 f938558b5d72f1a23810b4be2ab4f84331acc02fc97babc53a52ae8218a355a96d8770ac83d07bea87e13c512a\nopened 0 4265617574792069732074727574682c20747275746820626561757479\nopened 1 4265617574792069732074727574682c20747275746820626561757479\nbatch 1 0\nlane 1\nsealed 1 af2d7e9ac9ae7e270f46ba1f975be53c09f8d875bdc8535458c2494e8a6eab251c03d0c22a56b8ca42c2063b84\nfailed 2\nbatch 3 0\njournal 0\n0 0 0 0\n1 0 0 1\njournal 1\n0 1 0 2\n0 1 1 3\n1 1 0 4\nend\n",
        verdict: Verdict::Guess { line: 9 },
    },
    Row {
        source: "own: a guess of the second lane above the number that is due",
        batch: BATCH,
        result: "hpkebatch 2\nkey 0 refused length\ncontext 0 shared\ncontext 1 shared\nlane 0\nsealed 0 f938558b5d72f1a23810b4be2ab4f84331acc02fc97babc53a52ae8218a355a96d8770ac83d07bea87e13c512a\nopened 0 4265617574792069732074727574682c20747275746820626561757479\nopened 1 4265617574792069732074727574682c20747275746820626561757479\nbatch 0 0\nlane 1\nsealed 1 af2d7e9ac9ae7e270f46ba1f975be53c09f8d875bdc8535458c2494e8a6eab251c03d0c22a56b8ca42c2063b84\nfailed 2\nbatch 3 0\njournal 0\n0 0 0 0\n1 0 0 1\njournal 1\n0 1 0 2\n0 1 1 3\n1 1 0 4\nend\n",
        verdict: Verdict::Guess { line: 13 },
    },
    Row {
        source: "own: the second lane's guess missed no message",
        batch: BATCH,
        result: "hpkebatch 2\nkey 0 refused length\ncontext 0 shared\ncontext 1 shared\nlane 0\nsealed 0 f938558b5d72f1a23810b4be2ab4f84331acc02fc97babc53a52ae8218a355a96d8770ac83d07bea87e13c512a\nopened 0 4265617574792069732074727574682c20747275746820626561757479\nopened 1 4265617574792069732074727574682c20747275746820626561757479\nbatch 0 0\nlane 1\nsealed 1 af2d7e9ac9ae7e270f46ba1f975be53c09f8d875bdc8535458c2494e8a6eab251c03d0c22a56b8ca42c2063b84\nfailed 2\nbatch 2 1\njournal 0\n0 0 0 0\n1 0 0 1\njournal 1\n0 1 0 2\n0 1 1 3\n1 1 0 4\nend\n",
        verdict: Verdict::Guess { line: 13 },
    },
    Row {
        source: "own: two journals with a place left out, and the first is told",
        batch: BATCH,
        result: "hpkebatch 2\nkey 0 refused length\ncontext 0 shared\ncontext 1 shared\nlane 0\nsealed 0 f938558b5d72f1a23810b4be2ab4f84331acc02fc97babc53a52ae8218a355a96d8770ac83d07bea87e13c512a\nopened 0 4265617574792069732074727574682c20747275746820626561757479\nopened 1 4265617574792069732074727574682c20747275746820626561757479\nbatch 0 0\nlane 1\nsealed 1 af2d7e9ac9ae7e270f46ba1f975be53c09f8d875bdc8535458c2494e8a6eab251c03d0c22a56b8ca42c2063b84\nfailed 2\nbatch 2 0\njournal 0\n0 0 0 0\njournal 1\n0 1 0 2\n0 1 1 3\nend\n",
        verdict: Verdict::Journal { context: 0 },
    },
    Row {
        source: "own: a journal that isn't legal comes before stamps that are no history",
        batch: BATCH,
        result: "hpkebatch 2\nkey 0 refused length\ncontext 0 shared\ncontext 1 shared\nlane 0\nsealed 0 f938558b5d72f1a23810b4be2ab4f84331acc02fc97babc53a52ae8218a355a96d8770ac83d07bea87e13c512a\nopened 0 4265617574792069732074727574682c20747275746820626561757479\nopened 1 4265617574792069732074727574682c20747275746820626561757479\nbatch 0 0\nlane 1\nsealed 1 af2d7e9ac9ae7e270f46ba1f975be53c09f8d875bdc8535458c2494e8a6eab251c03d0c22a56b8ca42c2063b84\nfailed 2\nbatch 2 0\njournal 0\n0 0 0 0\n1 0 0 1\njournal 1\n0 1 0 2\n1 1 0 5\nend\n",
        verdict: Verdict::Journal { context: 1 },
    },
    Row {
        source: "own: another word in the line of a key",
        batch: BATCH,
        result: "hpkebatch 2\nkey 0 refused form\ncontext 0 shared\ncontext 1 shared\nlane 0\nsealed 0 f938558b5d72f1a23810b4be2ab4f84331acc02fc97babc53a52ae8218a355a96d8770ac83d07bea87e13c512a\nopened 0 4265617574792069732074727574682c20747275746820626561757479\nopened 1 4265617574792069732074727574682c20747275746820626561757479\nbatch 0 0\nlane 1\nsealed 1 af2d7e9ac9ae7e270f46ba1f975be53c09f8d875bdc8535458c2494e8a6eab251c03d0c22a56b8ca42c2063b84\nfailed 2\nbatch 2 0\njournal 0\n0 0 0 0\n1 0 0 1\njournal 1\n0 1 0 2\n0 1 1 3\n1 1 0 4\nend\n",
        verdict: Verdict::Form { line: 2 },
    },
    Row {
        source: "own: another word in the line of a context",
        batch: BATCH,
        result: "hpkebatch 2\nkey 0 refused length\ncontext 0 shared\ncontext 1 recipient\nlane 0\nsealed 0 f938558b5d72f1a23810b4be2ab4f84331acc02fc97babc53a52ae8218a355a96d8770ac83d07bea87e13c512a\nopened 0 4265617574792069732074727574682c20747275746820626561757479\nopened 1 4265617574792069732074727574682c20747275746820626561757479\nbatch 0 0\nlane 1\nsealed 1 af2d7e9ac9ae7e270f46ba1f975be53c09f8d875bdc8535458c2494e8a6eab251c03d0c22a56b8ca42c2063b84\nfailed 2\nbatch 2 0\njournal 0\n0 0 0 0\n1 0 0 1\njournal 1\n0 1 0 2\n0 1 1 3\n1 1 0 4\nend\n",
        verdict: Verdict::Form { line: 4 },
    },
    Row {
        source: "own: another number of a lane",
        batch: BATCH,
        result: "hpkebatch 2\nkey 0 refused length\ncontext 0 shared\ncontext 1 shared\nlane 0\nsealed 0 f938558b5d72f1a23810b4be2ab4f84331acc02fc97babc53a52ae8218a355a96d8770ac83d07bea87e13c512a\nopened 0 4265617574792069732074727574682c20747275746820626561757479\nopened 1 4265617574792069732074727574682c20747275746820626561757479\nbatch 0 0\nlane 2\nsealed 1 af2d7e9ac9ae7e270f46ba1f975be53c09f8d875bdc8535458c2494e8a6eab251c03d0c22a56b8ca42c2063b84\nfailed 2\nbatch 2 0\njournal 0\n0 0 0 0\n1 0 0 1\njournal 1\n0 1 0 2\n0 1 1 3\n1 1 0 4\nend\n",
        verdict: Verdict::Form { line: 10 },
    },
    Row {
        source: "own: another number of a journal",
        batch: BATCH,
        result: "hpkebatch 2\nkey 0 refused length\ncontext 0 shared\ncontext 1 shared\nlane 0\nsealed 0 f938558b5d72f1a23810b4be2ab4f84331acc02fc97babc53a52ae8218a355a96d8770ac83d07bea87e13c512a\nopened 0 4265617574792069732074727574682c20747275746820626561757479\nopened 1 4265617574792069732074727574682c20747275746820626561757479\nbatch 0 0\nlane 1\nsealed 1 af2d7e9ac9ae7e270f46ba1f975be53c09f8d875bdc8535458c2494e8a6eab251c03d0c22a56b8ca42c2063b84\nfailed 2\nbatch 2 0\njournal 0\n0 0 0 0\n1 0 0 1\njournal 2\n0 1 0 2\n0 1 1 3\n1 1 0 4\nend\n",
        verdict: Verdict::Form { line: 17 },
    },
    Row {
        source: "own: a place without its stamp",
        batch: BATCH,
        result: "hpkebatch 2\nkey 0 refused length\ncontext 0 shared\ncontext 1 shared\nlane 0\nsealed 0 f938558b5d72f1a23810b4be2ab4f84331acc02fc97babc53a52ae8218a355a96d8770ac83d07bea87e13c512a\nopened 0 4265617574792069732074727574682c20747275746820626561757479\nopened 1 4265617574792069732074727574682c20747275746820626561757479\nbatch 0 0\nlane 1\nsealed 1 af2d7e9ac9ae7e270f46ba1f975be53c09f8d875bdc8535458c2494e8a6eab251c03d0c22a56b8ca42c2063b84\nfailed 2\nbatch 2 0\njournal 0\n0 0 0 0\n1 0 0 1\njournal 1\n0 1 0 2\n0 1 1 3\n1 1 0\nend\n",
        verdict: Verdict::Form { line: 20 },
    },
    Row {
        source: "own: a stamp above 65535",
        batch: BATCH,
        result: "hpkebatch 2\nkey 0 refused length\ncontext 0 shared\ncontext 1 shared\nlane 0\nsealed 0 f938558b5d72f1a23810b4be2ab4f84331acc02fc97babc53a52ae8218a355a96d8770ac83d07bea87e13c512a\nopened 0 4265617574792069732074727574682c20747275746820626561757479\nopened 1 4265617574792069732074727574682c20747275746820626561757479\nbatch 0 0\nlane 1\nsealed 1 af2d7e9ac9ae7e270f46ba1f975be53c09f8d875bdc8535458c2494e8a6eab251c03d0c22a56b8ca42c2063b84\nfailed 2\nbatch 2 0\njournal 0\n0 0 0 0\n1 0 0 1\njournal 1\n0 1 0 2\n0 1 1 3\n1 1 0 65536\nend\n",
        verdict: Verdict::Form { line: 20 },
    },
    Row {
        source: "own: a line without its form comes before a journal, stamps, a reply and a guess",
        batch: BATCH,
        result: "hpkebatch 2\nkey 0 refused length\ncontext 0 shared\ncontext 1 shared\nlane 0\nsealed 0 f938558b5d72f1a23810b4be2ab4f84331acc02fc97babc53a52ae8218a355a96d8770ac83d07bea87e13c512a\nopened 0 4265617574792069732074727574682c20747275746820626561757479\nopened 1 4265617574792069732074727574682c20747275746820626561757479\nbatch 1 0\nlane 1\nsealed 1 af2d7e9ac9ae7e270f46ba1f975be53c09f8d875bdc8535458c2494e8a6eab251c03d0c22a56b8ca42c2063b84\nfailed 1\nbatch 2 0\njournal 0\n0 0 0 0\n0 0 0 5\njournal 1\n0 1 0 2\n0 1 1 3\n1 1 0 4\nends\n",
        verdict: Verdict::Form { line: 21 },
    },
];
