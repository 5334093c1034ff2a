//! Bytes fields, and the most bytes that each may have.

use crate::bad_cases::FieldCase;

// All are own, from the format's table of fields.
pub static FIELDS: [FieldCase; 10] = [
    FieldCase {
        what: "HEX",
        before: b"hpkebatch 1\npeer ",
        most: 65_535,
        after: b"\n",
        line: 2,
    },
    FieldCase {
        what: "SECRET",
        before: b"hpkebatch 1\nshare send 32 1 1 ",
        most: 65_535,
        after: b" base - - - 9\n",
        line: 2,
    },
    FieldCase {
        what: "ENC",
        before: b"hpkebatch 1\nrecv 1 1 0 ",
        most: 65_535,
        after: b" base - - - 9\n",
        line: 2,
    },
    FieldCase {
        what: "INFO",
        before: b"hpkebatch 1\nshare send 32 1 1 - base ",
        most: 65_535,
        after: b" - - 9\n",
        line: 2,
    },
    FieldCase {
        what: "PSK",
        before: b"hpkebatch 1\nshare send 32 1 1 - psk - ",
        most: 65_535,
        after: b" - 9\n",
        line: 2,
    },
    FieldCase {
        what: "PSKID",
        before: b"hpkebatch 1\nshare send 32 1 1 - psk - - ",
        most: 65_535,
        after: b" 9\n",
        line: 2,
    },
    FieldCase {
        what: "AAD of `seal`",
        before: b"hpkebatch 1\nlane\nseal 0 ",
        most: 65_535,
        after: b" -\n",
        line: 3,
    },
    FieldCase {
        what: "AAD of `unseal`",
        before: b"hpkebatch 1\nlane\nunseal 0 ",
        most: 65_535,
        after: b" -\n",
        line: 3,
    },
    FieldCase {
        what: "AAD of the second pair of `unsealall`",
        before: b"hpkebatch 1\nlane\nunsealall 0 - - ",
        most: 65_535,
        after: b" -\n",
        line: 3,
    },
    FieldCase {
        what: "BYTES",
        before: b"hpkebatch 1\nlane\nexport 0 ",
        most: 65_535,
        after: b" 32\n",
        line: 3,
    },
];

pub const PLAINTEXT: FieldCase = FieldCase {
    what: "PT",
    before: b"hpkebatch 1\nlane\nseal 0 - ",
    most: 1_048_576,
    after: b"\n",
    line: 3,
};

pub static CIPHERTEXTS: [FieldCase; 2] = [
    FieldCase {
        what: "CT of `unseal`",
        before: b"hpkebatch 1\nlane\nunseal 0 - ",
        most: 1_048_592,
        after: b"\n",
        line: 3,
    },
    FieldCase {
        what: "CT of the second pair of `unsealall`",
        before: b"hpkebatch 1\nlane\nunsealall 0 - - - ",
        most: 1_048_592,
        after: b"\n",
        line: 3,
    },
];
