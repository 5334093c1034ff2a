//! The table of AES. The check computes each entry by the definitions (`proofs/ByteTables.antt`).

// x^0 to x^9 (FIPS 197, 5.2, table 5).
pub(crate) static ROUND_CONSTANTS: [u8; 10] = [
    0x01, 0x02, 0x04, 0x08, 0x10, 0x20, 0x40, 0x80, 0x1b, 0x36,
];
