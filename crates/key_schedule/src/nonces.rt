//! The nonces of a context (RFC 9180, 5.2).

ghost use Rattle.std.specs.Prelude.{◌≡◌, length};
ghost use Rattle.byte_strings.specs.Bytes.{i2osp, xor_bytes};
ghost use Rattle.key_schedule.specs.Nonces.{compute_nonce};

// XORs `mask` into `bytes`, place by place.
fn xor_into(bytes: &mut [u8], mask: &[u8])
    requires { length mask.now ≡ length bytes.old }
    ensures { bytes.new ≡ xor_bytes bytes.old mask.now }
{
    'places: for i in 0..bytes.len() {
        bytes[i] ^= mask[i];
    }
}

/// ComputeNonce(seq) (RFC 9180, 5.2): the nonce of the message with this sequence number.
///
/// The RFC takes sequence numbers of up to 12 bytes; those here have 8, so each has its nonce and
/// none is refused.
pub fn nonce_at(base_nonce: &[u8; 12], seq: u64) -> [u8; 12]
    ensures { result ≡ compute_nonce base_nonce.now seq }
{
    let mut nonce = *base_nonce;
    let number = u128::from(seq).to_be_bytes();
    xor_into(&mut nonce, &number[4..]);
    nonce
}
