//! HKDF-Expand under one key, for many outputs.

ghost use Rattle.std.specs.Prelude.{◌≡◌, ◌≤◌, ◌*◌, length};
ghost use Rattle.hkdf_labelled.specs.Hkdf.{expand};
ghost use Rattle.hkdf_labelled.specs.Labels.{labeled_expand};
ghost use Rattle.hkdf_labelled.specs.Suites.{hash_size};

use crate::hkdf::expand_parts;
use crate::labels::{expand_prefix, suite_id};
use crate::macs::Mac;
use crate::prks::Prk;
use crate::suites::{Kdf, Suite};
use std::marker::Model;

/// HKDF-Expand under one PRK (RFC 5869, 2.3), for as many outputs as are asked for. Contracts see
/// the KDF and the PRK.
///
/// The two blocks that HMAC makes of the PRK are hashed once, when this is made, and each output
/// begins with what they gave.
#[derive(Drop)]
pub struct Expander {
    kdf: Kdf,
    prk: Prk,
    keyed: Mac,
}

impl Model for Expander {
    ghost use Rattle.std.specs.Prelude.{[]};
    ghost use Rattle.hkdf_labelled.specs.Expanders.{ExpanderView};
    ghost use Rattle.hkdf_labelled.specs.Macs.{IsKeyed};

    ghost Value = { ExpanderView };

    ghost view = { λ e. record { kdf = e.kdf; prk = e.prk } };

    ghost invariant = { λ e. IsKeyed e.keyed e.kdf e.prk [] };
}

impl Expander {
    /// HKDF-Expand under this PRK.
    pub fn new(kdf: Kdf, prk: Prk) -> Expander
        ensures { result ≡ record { kdf = kdf; prk = prk } }
    {
        let keyed = Mac::new(kdf, prk.as_slice());
        Expander { kdf, prk, keyed }
    }

    /// HKDF-Expand (RFC 5869, 2.3), as [`expand_into`](crate::expand_into).
    pub fn expand_into(&self, info: &[u8], out: &mut [u8])
        requires { length out.old ≤ 255 * hash_size self.now.kdf }
        ensures { out.new ≡ expand self.now.kdf self.now.prk info.now (length out.old) }
    {
        expand_parts(self.kdf, self.keyed.copy(), &[], &[], &[], info, out);
    }

    /// LabeledExpand (RFC 9180, 4), as [`labeled_expand_into`](crate::labeled_expand_into), for a
    /// suite with this KDF.
    pub fn labeled_expand_into(&self, suite: &Suite, label: &[u8], info: &[u8], out: &mut [u8])
        requires kdf { suite.now.kdf ≡ self.now.kdf }
        requires blocks { length out.old ≤ 255 * hash_size self.now.kdf }
        ensures { out.new
            ≡ labeled_expand suite.now self.now.prk label.now info.now (length out.old) }
    {
        let prefix = expand_prefix(out.len() as u16);
        let keyed = self.keyed.copy();
        expand_parts(self.kdf, keyed, &prefix, &suite_id(suite), label, info, out);
    }
}
