//! Whole batches and what they are answered. The replies come from RFC 9180's vectors and from the
//! formats' tables. A function gives each table, since one that names it is proved over all its rows.

// A whole batch over a source that gives `step` bytes a call, and the text that it is answered.
pub struct Run {
    pub source: &'static str,
    pub words: &'static [&'static str],
    pub input: &'static str,
    pub step: usize,
    pub reply: &'static str,
}

// At most one lane, and no opening of several messages.
static RUNS: [Run; 14] = [
    Run {
        source: "own: the shortest batch, a byte a call",
        words: &["run"],
        input: "hpkebatch 1\nend\n",
        step: 1,
        reply: "hpkebatch 1\nend\n",
    },
    Run {
        source: "RFC 9180, A.1.1.1, sequence numbers 0 and 1",
        words: &["run"],
        input: "hpkebatch 1\nshare send 32 1 1 fe0e18c9f024ce43799ae393c7e8fe8fce9d218875e8227b0187c04e7d2ea1fc base 4f6465206f6e2061204772656369616e2055726e - - 2\nlane\nseal 0 436f756e742d30 4265617574792069732074727574682c20747275746820626561757479\nseal 0 436f756e742d31 4265617574792069732074727574682c20747275746820626561757479\nend\n",
        step: 3,
        reply: "hpkebatch 1\ncontext 0 shared\nlane 0\nsealed 0 f938558b5d72f1a23810b4be2ab4f84331acc02fc97babc53a52ae8218a355a96d8770ac83d07bea87e13c512a\nsealed 1 af2d7e9ac9ae7e270f46ba1f975be53c09f8d875bdc8535458c2494e8a6eab251c03d0c22a56b8ca42c2063b84\njournal 0\n0 0 0\n0 1 0\nend\n",
    },
    Run {
        source: "RFC 9180, A.1.1.2",
        words: &["run"],
        input: "hpkebatch 1\nshare send 32 1 1 fe0e18c9f024ce43799ae393c7e8fe8fce9d218875e8227b0187c04e7d2ea1fc base 4f6465206f6e2061204772656369616e2055726e - - 1\nlane\nexport 0 - 32\nexport 0 00 32\nexport 0 54657374436f6e74657874 32\nend\n",
        step: 3,
        reply: "hpkebatch 1\ncontext 0 shared\nlane 0\nexported 3853fe2b4035195a573ffc53856e77058e15d9ea064de3e59f4961d0095250ee\nexported 2e8f0b54673c7029649d4eb9d5e33bf1872cf76d623ff164ac185da9e88c21a5\nexported e9e43065102c3836401bed8c3c3c75ae46be1639869391d62c61f1ec7af54931\njournal 0\nend\n",
    },
    Run {
        source: "the key and base_nonce of RFC 9180, A.1.2, under Python's cryptography 48.0.0, \
            and the exports of A.1.2.2, by the recipient",
        words: &["run"],
        input: "hpkebatch 1\nshare recv 32 1 1 727699f009ffe3c076315019c69648366b69171439bd7dd0807743bde76986cd psk 4f6465206f6e2061204772656369616e2055726e 0247fd33b913760fa1fa51e1892d9f307fbe65eb171e8132c2af18555a738b82 456e6e796e20447572696e206172616e204d6f726961 9\nlane\nunseal 0 436f756e742d30 e52c6fed7f758d0cf7145689f21bc1be6ec9ea097fef4e959440012f4feb73fb611b946199e681f4cfc34db8ea\nexport 0 - 32\nunseal 0 436f756e742d31 49f3b19b28a9ea9f43e8c71204c00d4a490ee7f61387b6719db765e948123b45b61633ef059ba22cd62437c8ba\nexport 0 54657374436f6e74657874 32\nend\n",
        step: 4096,
        reply: "hpkebatch 1\ncontext 0 shared\nlane 0\nopened 0 4265617574792069732074727574682c20747275746820626561757479\nexported dff17af354c8b41673567db6259fd6029967b4e1aad13023c2ae5df8f4f43bf6\nopened 1 4265617574792069732074727574682c20747275746820626561757479\nexported 8aff52b45a1be3a734bc7a41e20b4e055ad4c4d22104b0c20285a7c4302401cd\njournal 0\n0 0 0\n0 2 0\nend\n",
    },
    Run {
        source: "the key and base_nonce of RFC 9180, A.4.1 and A.6.1, \
            under Python's cryptography 48.0.0",
        words: &["run"],
        input: "hpkebatch 1\nshare send 16 3 1 02f584736390fc93f5b4ad039826a3fa08e9911bd1215a3db8e8791ba533cafd base 4f6465206f6e2061204772656369616e2055726e - - 2\nshare send 18 3 2 776ab421302f6eff7d7cb5cb1adaea0cd50872c71c2d63c30c4f1d5e43653336fef33b103c67e7a98add2d3b66e2fda95b5b2a667aa9dac7e59cc1d46d30e818 base 4f6465206f6e2061204772656369616e2055726e - - 2\nlane\nseal 1 436f756e742d30 4265617574792069732074727574682c20747275746820626561757479\nseal 0 436f756e742d30 4265617574792069732074727574682c20747275746820626561757479\nexport 1 - 32\nseal 0 436f756e742d31 4265617574792069732074727574682c20747275746820626561757479\nexport 0 - 32\nend\n",
        step: 4096,
        reply: "hpkebatch 1\ncontext 0 shared\ncontext 1 shared\nlane 0\nsealed 0 170f8beddfe949b75ef9c387e201baf4132fa7374593dfafa90768788b7b2b200aafcc6d80ea4c795a7c5b841a\nsealed 0 d3cf4984931484a080f74c1bb2a6782700dc1fef9abe8442e44a6f09044c88907200b332003543754eb51917ba\nexported 05e2e5bd9f0c30832b80a279ff211cc65eceb0d97001524085d609ead60d0412\nsealed 1 d14414555a47269dfead9fbf26abb303365e40709a4ed16eaefe1f2070f1ddeb1bdd94d9e41186f124e0acc62d\nexported a32186b8946f61aeead1c093fe614945f85833b165b28c46bf271abf16b57208\njournal 0\n0 1 0\n0 3 0\njournal 1\n0 0 0\nend\n",
    },
    Run {
        source: "RFC 9180, A.1.1.1, and a seal at LIMIT",
        words: &["run"],
        input: "hpkebatch 1\nshare send 32 1 1 fe0e18c9f024ce43799ae393c7e8fe8fce9d218875e8227b0187c04e7d2ea1fc base 4f6465206f6e2061204772656369616e2055726e - - 1\nlane\nseal 0 436f756e742d30 4265617574792069732074727574682c20747275746820626561757479\nseal 0 436f756e742d30 4265617574792069732074727574682c20747275746820626561757479\nend\n",
        step: 4096,
        reply: "hpkebatch 1\ncontext 0 shared\nlane 0\nsealed 0 f938558b5d72f1a23810b4be2ab4f84331acc02fc97babc53a52ae8218a355a96d8770ac83d07bea87e13c512a\nlimit\njournal 0\n0 0 0\n0 1 0\nend\n",
    },
    Run {
        source: "RFC 9180, A.1.1.1, and openings at LIMIT, the second with its last bit changed",
        words: &["run"],
        input: "hpkebatch 1\nshare recv 32 1 1 fe0e18c9f024ce43799ae393c7e8fe8fce9d218875e8227b0187c04e7d2ea1fc base 4f6465206f6e2061204772656369616e2055726e - - 1\nlane\nunseal 0 436f756e742d30 f938558b5d72f1a23810b4be2ab4f84331acc02fc97babc53a52ae8218a355a96d8770ac83d07bea87e13c512a\nunseal 0 436f756e742d31 af2d7e9ac9ae7e270f46ba1f975be53c09f8d875bdc8535458c2494e8a6eab251c03d0c22a56b8ca42c2063b84\nunseal 0 436f756e742d31 af2d7e9ac9ae7e270f46ba1f975be53c09f8d875bdc8535458c2494e8a6eab251c03d0c22a56b8ca42c2063b85\nend\n",
        step: 4096,
        reply: "hpkebatch 1\ncontext 0 shared\nlane 0\nopened 0 4265617574792069732074727574682c20747275746820626561757479\nlimit\nfailed 1\njournal 0\n0 0 0\n0 1 0\n0 2 0\nend\n",
    },
    Run {
        source: "own: a failed opening uses no number",
        words: &["run"],
        input: "hpkebatch 1\nshare recv 32 1 1 fe0e18c9f024ce43799ae393c7e8fe8fce9d218875e8227b0187c04e7d2ea1fc base 4f6465206f6e2061204772656369616e2055726e - - 9\nlane\nunseal 0 436f756e742d30 f938558b5d72f1a23810b4be2ab4f84331acc02fc97babc53a52ae8218a355a96d8770ac83d07bea87e13c512b\nunseal 0 436f756e742d31 af2d7e9ac9ae7e270f46ba1f975be53c09f8d875bdc8535458c2494e8a6eab251c03d0c22a56b8ca42c2063b84\nunseal 0 436f756e742d30 f938558b5d72f1a23810b4be2ab4f84331acc02fc97babc53a52ae8218a355a96d8770ac83d07bea87e13c512a\nend\n",
        step: 4096,
        reply: "hpkebatch 1\ncontext 0 shared\nlane 0\nfailed 0\nfailed 0\nopened 0 4265617574792069732074727574682c20747275746820626561757479\njournal 0\n0 0 0\n0 1 0\n0 2 0\nend\n",
    },
    Run {
        source: "own: the greatest LIMIT",
        words: &["run"],
        input: "hpkebatch 1\nshare send 32 1 1 fe0e18c9f024ce43799ae393c7e8fe8fce9d218875e8227b0187c04e7d2ea1fc base 4f6465206f6e2061204772656369616e2055726e - - 18446744073709551615\nend\n",
        step: 4096,
        reply: "hpkebatch 1\ncontext 0 shared\njournal 0\nend\n",
    },
    Run {
        source: "own: each refusal of a context by its psk inputs, and a call on one of them",
        words: &["run"],
        input: "hpkebatch 1\nshare recv 32 1 1 fe0e18c9f024ce43799ae393c7e8fe8fce9d218875e8227b0187c04e7d2ea1fc psk 4f6465206f6e2061204772656369616e2055726e aa - 1\nshare recv 32 1 1 fe0e18c9f024ce43799ae393c7e8fe8fce9d218875e8227b0187c04e7d2ea1fc base 4f6465206f6e2061204772656369616e2055726e aa bb 1\nshare recv 32 1 1 fe0e18c9f024ce43799ae393c7e8fe8fce9d218875e8227b0187c04e7d2ea1fc psk 4f6465206f6e2061204772656369616e2055726e - - 1\nlane\nunseal 0 436f756e742d30 f938558b5d72f1a23810b4be2ab4f84331acc02fc97babc53a52ae8218a355a96d8770ac83d07bea87e13c512a\nend\n",
        step: 4096,
        reply: "hpkebatch 1\ncontext 0 refused pskpair\ncontext 1 refused pskextra\ncontext 2 refused pskmissing\nlane 0\nrefused nocontext\njournal 0\njournal 1\njournal 2\nend\n",
    },
    Run {
        source: "own: an export-only context, one byte above 255 Nh, and no byte",
        words: &["run"],
        input: "hpkebatch 1\nshare send 32 1 65535 fe0e18c9f024ce43799ae393c7e8fe8fce9d218875e8227b0187c04e7d2ea1fc base - - - 1\nlane\nseal 0 - -\nexport 0 - 8161\nexport 0 - 0\nend\n",
        step: 4096,
        reply: "hpkebatch 1\ncontext 0 shared\nlane 0\nrefused nocipher\nrefused exportsize\nexported -\njournal 0\nend\n",
    },
    Run {
        source: "own: the other role's call, no context, and fewer bytes than a tag",
        words: &["run"],
        input: "hpkebatch 1\nshare recv 32 1 1 fe0e18c9f024ce43799ae393c7e8fe8fce9d218875e8227b0187c04e7d2ea1fc base 4f6465206f6e2061204772656369616e2055726e - - 9\nlane\nseal 0 - -\nunseal 1 - -\nunseal 0 - 00\nend\n",
        step: 4096,
        reply: "hpkebatch 1\ncontext 0 shared\nlane 0\nrefused role\nrefused nocontext\nfailed 0\njournal 0\n0 2 0\nend\n",
    },
    Run {
        source: "own: an opening by a sender",
        words: &["run"],
        input: "hpkebatch 1\nshare send 32 1 1 fe0e18c9f024ce43799ae393c7e8fe8fce9d218875e8227b0187c04e7d2ea1fc base 4f6465206f6e2061204772656369616e2055726e - - 9\nlane\nunseal 0 436f756e742d30 f938558b5d72f1a23810b4be2ab4f84331acc02fc97babc53a52ae8218a355a96d8770ac83d07bea87e13c512a\nend\n",
        step: 4096,
        reply: "hpkebatch 1\ncontext 0 shared\nlane 0\nrefused role\njournal 0\nend\n",
    },
    Run {
        source: "own: the shortest batch of version 2",
        words: &["run"],
        input: "hpkebatch 2\nend\n",
        step: 4096,
        reply: "hpkebatch 2\nend\n",
    },
];

pub fn runs() -> &'static [Run; 14] {
    &RUNS
}

// Openings of several messages, and rehearsals, in both versions.
static OPENINGS_AND_SCHEDULES: [Run; 9] = [
    Run {
        source: "RFC 9180, A.1.1.1; two lanes, the second first",
        words: &["rehearse", "1,0"],
        input: "hpkebatch 1\nshare send 32 1 1 fe0e18c9f024ce43799ae393c7e8fe8fce9d218875e8227b0187c04e7d2ea1fc base 4f6465206f6e2061204772656369616e2055726e - - 2\nlane\nseal 0 436f756e742d31 4265617574792069732074727574682c20747275746820626561757479\nlane\nseal 0 436f756e742d30 4265617574792069732074727574682c20747275746820626561757479\nend\n",
        step: 7,
        reply: "hpkebatch 1\ncontext 0 shared\nlane 0\nsealed 1 af2d7e9ac9ae7e270f46ba1f975be53c09f8d875bdc8535458c2494e8a6eab251c03d0c22a56b8ca42c2063b84\nlane 1\nsealed 0 f938558b5d72f1a23810b4be2ab4f84331acc02fc97babc53a52ae8218a355a96d8770ac83d07bea87e13c512a\njournal 0\n1 0 0\n0 0 0\nend\n",
    },
    Run {
        source: "RFC 9180, A.1.1.1; an opening with a changed tag in it",
        words: &["run"],
        input: "hpkebatch 1\nshare recv 32 1 1 fe0e18c9f024ce43799ae393c7e8fe8fce9d218875e8227b0187c04e7d2ea1fc base 4f6465206f6e2061204772656369616e2055726e - - 9\nlane\nunsealall 0 436f756e742d30 f938558b5d72f1a23810b4be2ab4f84331acc02fc97babc53a52ae8218a355a96d8770ac83d07bea87e13c512a 436f756e742d31 af2d7e9ac9ae7e270f46ba1f975be53c09f8d875bdc8535458c2494e8a6eab251c03d0c22a56b8ca42c2063b85 436f756e742d31 af2d7e9ac9ae7e270f46ba1f975be53c09f8d875bdc8535458c2494e8a6eab251c03d0c22a56b8ca42c2063b84\nend\n",
        step: 1,
        reply: "hpkebatch 1\ncontext 0 shared\nlane 0\nopened 0 4265617574792069732074727574682c20747275746820626561757479\nfailed 1\nopened 1 4265617574792069732074727574682c20747275746820626561757479\nbatch 0 0\njournal 0\n0 0 0\n0 0 1\n0 0 2\nend\n",
    },
    Run {
        source: "RFC 9180, A.1.1.1; five changed tags before the right one: two numbers outside the windows",
        words: &["run"],
        input: "hpkebatch 1\nshare recv 32 1 1 fe0e18c9f024ce43799ae393c7e8fe8fce9d218875e8227b0187c04e7d2ea1fc base 4f6465206f6e2061204772656369616e2055726e - - 9\nlane\nunsealall 0 436f756e742d30 f938558b5d72f1a23810b4be2ab4f84331acc02fc97babc53a52ae8218a355a96d8770ac83d07bea87e13c512b 436f756e742d30 f938558b5d72f1a23810b4be2ab4f84331acc02fc97babc53a52ae8218a355a96d8770ac83d07bea87e13c512b 436f756e742d30 f938558b5d72f1a23810b4be2ab4f84331acc02fc97babc53a52ae8218a355a96d8770ac83d07bea87e13c512b 436f756e742d30 f938558b5d72f1a23810b4be2ab4f84331acc02fc97babc53a52ae8218a355a96d8770ac83d07bea87e13c512b 436f756e742d30 f938558b5d72f1a23810b4be2ab4f84331acc02fc97babc53a52ae8218a355a96d8770ac83d07bea87e13c512b 436f756e742d30 f938558b5d72f1a23810b4be2ab4f84331acc02fc97babc53a52ae8218a355a96d8770ac83d07bea87e13c512a\nend\n",
        step: 4096,
        reply: "hpkebatch 1\ncontext 0 shared\nlane 0\nfailed 0\nfailed 0\nfailed 0\nfailed 0\nfailed 0\nopened 0 4265617574792069732074727574682c20747275746820626561757479\nbatch 0 2\njournal 0\n0 0 0\n0 0 1\n0 0 2\n0 0 3\n0 0 4\n0 0 5\nend\n",
    },
    Run {
        source: "RFC 9180, A.1.1.1; a guess that another lane makes stale",
        words: &["rehearse", "0,1,1,1,1"],
        input: "hpkebatch 1\nshare recv 32 1 1 fe0e18c9f024ce43799ae393c7e8fe8fce9d218875e8227b0187c04e7d2ea1fc base 4f6465206f6e2061204772656369616e2055726e - - 9\nlane\nunsealall 0 436f756e742d31 af2d7e9ac9ae7e270f46ba1f975be53c09f8d875bdc8535458c2494e8a6eab251c03d0c22a56b8ca42c2063b84\nlane\nunseal 0 436f756e742d30 f938558b5d72f1a23810b4be2ab4f84331acc02fc97babc53a52ae8218a355a96d8770ac83d07bea87e13c512a\nend\n",
        step: 4096,
        reply: "hpkebatch 1\ncontext 0 shared\nlane 0\nopened 1 4265617574792069732074727574682c20747275746820626561757479\nbatch 0 1\nlane 1\nopened 0 4265617574792069732074727574682c20747275746820626561757479\njournal 0\n1 0 0\n0 0 0\nend\n",
    },
    Run {
        source: "RFC 9180, A.1.1.1; a replay",
        words: &["run"],
        input: "hpkebatch 1\nshare recv 32 1 1 fe0e18c9f024ce43799ae393c7e8fe8fce9d218875e8227b0187c04e7d2ea1fc base 4f6465206f6e2061204772656369616e2055726e - - 9\nlane\nunsealall 0 436f756e742d30 f938558b5d72f1a23810b4be2ab4f84331acc02fc97babc53a52ae8218a355a96d8770ac83d07bea87e13c512a 436f756e742d30 f938558b5d72f1a23810b4be2ab4f84331acc02fc97babc53a52ae8218a355a96d8770ac83d07bea87e13c512a\nend\n",
        step: 4096,
        reply: "hpkebatch 1\ncontext 0 shared\nlane 0\nopened 0 4265617574792069732074727574682c20747275746820626561757479\nfailed 1\nbatch 0 0\njournal 0\n0 0 0\n0 0 1\nend\n",
    },
    Run {
        source: "own: an opening of several messages that is refused has one reply",
        words: &["rehearse", "-"],
        input: "hpkebatch 1\nshare send 32 1 1 fe0e18c9f024ce43799ae393c7e8fe8fce9d218875e8227b0187c04e7d2ea1fc base 4f6465206f6e2061204772656369616e2055726e - - 9\nlane\nunsealall 0 436f756e742d30 f938558b5d72f1a23810b4be2ab4f84331acc02fc97babc53a52ae8218a355a96d8770ac83d07bea87e13c512a 436f756e742d31 af2d7e9ac9ae7e270f46ba1f975be53c09f8d875bdc8535458c2494e8a6eab251c03d0c22a56b8ca42c2063b84\nunsealall 1 436f756e742d30 f938558b5d72f1a23810b4be2ab4f84331acc02fc97babc53a52ae8218a355a96d8770ac83d07bea87e13c512a\nend\n",
        step: 4096,
        reply: "hpkebatch 1\ncontext 0 shared\nlane 0\nrefused role\nrefused nocontext\njournal 0\nend\n",
    },
    Run {
        source: "RFC 9180, A.1.1.1; version 2: two lanes, the second first",
        words: &["rehearse", "1,0"],
        input: "hpkebatch 2\nshare send 32 1 1 fe0e18c9f024ce43799ae393c7e8fe8fce9d218875e8227b0187c04e7d2ea1fc base 4f6465206f6e2061204772656369616e2055726e - - 2\nlane\nseal 0 436f756e742d31 4265617574792069732074727574682c20747275746820626561757479\nlane\nseal 0 436f756e742d30 4265617574792069732074727574682c20747275746820626561757479\nend\n",
        step: 4096,
        reply: "hpkebatch 2\ncontext 0 shared\nlane 0\nsealed 1 af2d7e9ac9ae7e270f46ba1f975be53c09f8d875bdc8535458c2494e8a6eab251c03d0c22a56b8ca42c2063b84\nlane 1\nsealed 0 f938558b5d72f1a23810b4be2ab4f84331acc02fc97babc53a52ae8218a355a96d8770ac83d07bea87e13c512a\njournal 0\n1 0 0 0\n0 0 0 1\nend\n",
    },
    Run {
        source: "RFC 9180, A.1.1.1; version 2: one history over two journals",
        words: &["rehearse", "0,0,0,0,1,0"],
        input: "hpkebatch 2\nshare send 32 1 1 fe0e18c9f024ce43799ae393c7e8fe8fce9d218875e8227b0187c04e7d2ea1fc base 4f6465206f6e2061204772656369616e2055726e - - 9\nshare recv 32 1 1 fe0e18c9f024ce43799ae393c7e8fe8fce9d218875e8227b0187c04e7d2ea1fc base 4f6465206f6e2061204772656369616e2055726e - - 9\nlane\nseal 0 436f756e742d30 4265617574792069732074727574682c20747275746820626561757479\nunsealall 1 436f756e742d30 f938558b5d72f1a23810b4be2ab4f84331acc02fc97babc53a52ae8218a355a96d8770ac83d07bea87e13c512a 436f756e742d31 af2d7e9ac9ae7e270f46ba1f975be53c09f8d875bdc8535458c2494e8a6eab251c03d0c22a56b8ca42c2063b84\nlane\nseal 0 436f756e742d31 4265617574792069732074727574682c20747275746820626561757479\nend\n",
        step: 4096,
        reply: "hpkebatch 2\ncontext 0 shared\ncontext 1 shared\nlane 0\nsealed 0 f938558b5d72f1a23810b4be2ab4f84331acc02fc97babc53a52ae8218a355a96d8770ac83d07bea87e13c512a\nopened 0 4265617574792069732074727574682c20747275746820626561757479\nopened 1 4265617574792069732074727574682c20747275746820626561757479\nbatch 0 0\nlane 1\nsealed 1 af2d7e9ac9ae7e270f46ba1f975be53c09f8d875bdc8535458c2494e8a6eab251c03d0c22a56b8ca42c2063b84\njournal 0\n0 0 0 0\n1 0 0 1\njournal 1\n0 1 0 2\n0 1 1 3\nend\n",
    },
    Run {
        source: "own: the shortest batch, rehearsed",
        words: &["rehearse", "-"],
        input: "hpkebatch 1\nend\n",
        step: 4096,
        reply: "hpkebatch 1\nend\n",
    },
];

pub fn openings_and_schedules() -> &'static [Run; 9] {
    &OPENINGS_AND_SCHEDULES
}
