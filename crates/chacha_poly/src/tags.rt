//! Tags (RFC 8439, 2.8).

ghost use Rattle.std.specs.Prelude.{◌≡◌, ◌++◌};
ghost use Rattle.std.specs.Int.{w64, to_le_bytes};
ghost use Rattle.poly1305.specs.Poly1305.{tag};
ghost use Rattle.chacha_poly.specs.Aead.{mac_data};

use poly1305::Poly1305;

// The block of two lengths.
fn lengths(aad: usize, ct: usize) -> [u8; 16]
    ensures { result ≡ to_le_bytes w64 aad ++ to_le_bytes w64 ct }
{
    let [a, b, c, d, e, f, g, h] = (aad as u64).to_le_bytes();
    let [i, j, k, l, m, n, o, p] = (ct as u64).to_le_bytes();
    [a, b, c, d, e, f, g, h, i, j, k, l, m, n, o, p]
}

// The tag by a one-time key.
pub(crate) fn tag_by(once: &[u8; 32], aad: &[u8], ct: &[u8]) -> [u8; 16]
    ensures { result ≡ tag once.now (mac_data aad.now ct.now) }
{
    let mut mac = Poly1305::start(once);
    mac.update_padded(aad);
    mac.update_padded(ct);
    mac.finish(&lengths(aad.len(), ct.len()))
}
