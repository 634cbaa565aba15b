//! Sealing a plaintext in place.
ghost use Rattle.std.specs.Prelude.{◌≡◌, ◌+◌, ◌<◌, ◌≤◌, ◌^◌, take, length};
ghost use Rattle.vault_aes.specs.Padding.{padded_length};
ghost use Rattle.vault_core.specs.Sealing.{sealed};

use crate::secrets::SealingSecret;
use std::marker::Model;
use vault_aes::{Key, ctr_apply, pad};
use vault_kdf::{Meter, derive, hmac};
use vault_text::{Label, Salt, TAG_LENGTH};

/// The parts of a vault to write.
#[derive(Drop)]
pub(crate) struct Sealed<'a> {
    pub label: &'a Label,
    pub salt: &'a Salt,
    pub tag: [u8; TAG_LENGTH],
    pub ciphertext: &'a [u8],
}

impl<'a> Model for Sealed<'a> {
    ghost use Rattle.vault_text.specs.Envelope.{Payload};

    ghost Value = { Payload };

    ghost view = { λ s. record {
      label = s.label.now;
      salt = s.salt.now;
      tag = s.tag;
      ciphertext = s.ciphertext.now;
    } };
}

/// Seals the first `n` bytes of `work` in place.
pub(crate) fn seal<'a>(
    work: &'a mut [u8],
    n: usize,
    secret: &SealingSecret<'a, '_>,
    salt: &'a Salt,
    meter: &mut Meter,
) -> Sealed<'a>
    requires within { n ≤ length work.old }
    requires room { padded_length n ≤ length work.old }
    requires countable { meter.old < 2 ^ 63 }
    ensures sealed { result ≡ sealed secret.now salt.now (take n work.old) }
    ensures counted { meter.new ≡ meter.old + 1 }
{
    let keys = derive(secret.password, salt.as_bytes(), meter);
    let padded_len = pad(work, n);
    let ciphertext = &mut work[..padded_len];
    ctr_apply(&Key::new(&keys.cipher), &keys.iv, ciphertext);
    let tag = hmac(&keys.mac, ciphertext);
    Sealed {
        label: secret.label,
        salt,
        tag,
        ciphertext,
    }
}
