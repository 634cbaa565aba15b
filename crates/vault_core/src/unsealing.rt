//! Unsealing the payload of an envelope in place.
ghost use Rattle.std.specs.Prelude.{◌≡◌, ◌+◌, ◌<◌, ◌^◌, IfSome, length, take};
ghost use Rattle.std.specs.Option.{option_map};
ghost use Rattle.vault_core.specs.TriedSecrets.{tries};
ghost use Rattle.vault_core.specs.Unsealing.{deciphered_by, unsealing};
ghost use Rattle.vault_aes.specs.Padding.{padded_length, without_padding};
ghost use Rattle.vault_core.specs.Secrets.{tried_order};

use crate::secrets::Secrets;
use crate::tried_secrets::{Search, find_match};
use std::marker::Model;
use vault_aes::{Key, ctr_apply, unpad};
use vault_fault::Fault;
use vault_kdf::{Keys, Meter};
use vault_text::Payload;

/// An unsealed plaintext: the first `len` bytes of `padded`, which also has its padding.
#[derive(Drop)]
pub(crate) struct Unsealed<'a> {
    pub padded: &'a mut [u8],
    pub len: usize,
    pub tried: usize,
}

impl<'a> Model for Unsealed<'a> {
    ghost use Rattle.std.specs.Prelude.{◌≤◌, length, take};
    ghost use Rattle.vault_aes.specs.Padding.{padded_length};
    ghost use Rattle.vault_core.specs.Ready.{Ready};

    ghost Value = { Ready };

    ghost view = { λ o. record { output = take o.len o.padded.now; tried = o.tried } };

    ghost invariant = { λ o. padded_length o.len ≤ length o.padded.now };
}

/// Unseals the payload with the first secret in the tried order that matches it.
pub(crate) fn unseal<'a>(
    payload: Payload<'a>,
    secrets: &Secrets,
    meter: &mut Meter,
) -> Result<Unsealed<'a>, Fault>
    requires { meter.old < 2 ^ 62 }
    ensures unsealed { result ≡ unsealing secrets.now payload.entry }
    ensures counted { meter.new
        ≡ meter.old + tries payload.entry (tried_order secrets.now payload.entry.label) }
    ensures countable { meter.new < 2 ^ 63 }
{
    let Search { tried, keys } = find_match(secrets, &payload, meter);
    let Some(keys) = keys else {
        return Err(Fault::NoSecretFits);
    };
    let padded = payload.into_body();
    match decipher(padded, &keys) {
        Some(len) => Ok(Unsealed { padded, len, tried }),
        None => Err(Fault::BadPadding),
    }
}

/// Deciphers in place, and returns the length of the plaintext, or None if its padding is wrong.
fn decipher(text: &mut [u8], keys: &Keys) -> Option<usize>
    ensures deciphered { text.new ≡ deciphered_by keys.now text.old }
    ensures plaintext { option_map (λ len. take len text.new) result ≡ without_padding text.new }
    ensures len { IfSome result (λ len. padded_length len ≡ length text.new) }
{
    ctr_apply(&Key::new(&keys.cipher), &keys.iv, text);
    unpad(text)
}
