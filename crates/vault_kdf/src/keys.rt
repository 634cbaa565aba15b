//! The keys of a vault.
ghost use Rattle.std.specs.Prelude.{◌≡◌, ◌+◌, ◌<◌, ◌^◌};
ghost use Rattle.vault_kdf.specs.Keys.{vault_keys};

use crate::hmac_sha256::Hmac;
use crate::meter::Meter;
use crate::pbkdf2_hmac::fill_from;
use std::marker::Model;

/// The number of rounds that the Vault formats 1.1 and 1.2 prescribe.
const ROUNDS: u32 = 10_000;

/// The keys of a vault. They are not erased from memory when they are dropped.
#[derive(Drop)]
pub struct Keys {
    /// The key of the cipher: bytes 0 to 31 of the derived key.
    pub cipher: [u8; 32],
    /// The key of the tag: bytes 32 to 63.
    pub mac: [u8; 32],
    /// The initial counter block: bytes 64 to 79.
    pub iv: [u8; 16],
}

/// The keys of a vault, of which only the key of the tag has been computed: a third of the work.
#[derive(Drop)]
pub struct Derivation<'p, 's> {
    password: &'p [u8],
    salt: &'s [u8],
    keyed: Hmac,
    mac: [u8; 32],
}

impl<'p, 's> Model for Derivation<'p, 's> {
    ghost use Rattle.std.specs.Prelude.{◌≡◌, []};
    ghost use Rattle.vault_kdf.specs.Hmac.{HasRead};
    ghost use Rattle.vault_kdf.specs.Keys.{vault_keys};
    ghost use Rattle.vault_kdf.specs.declared.keys.Keys.{Keys};

    ghost Value = { Keys };

    ghost view = { λ d. vault_keys d.password.now d.salt.now };

    ghost invariant = { λ d. HasRead d.keyed d.password.now []
        × (d.mac ≡ (vault_keys d.password.now d.salt.now).mac) };
}

impl<'p, 's> Derivation<'p, 's> {
    /// Computes the key of the tag. The meter, which must be below 2^63, counts the derivation.
    pub fn begin(password: &'p [u8], salt: &'s [u8], meter: &mut Meter) -> Derivation<'p, 's>
        requires { meter.old < 2 ^ 63 }
        ensures keys { result ≡ vault_keys password.now salt.now }
        ensures counted { meter.new ≡ meter.old + 1 }
    {
        let keyed = Hmac::new(password);
        let mut mac = [0; 32];
        fill_from(&keyed, salt, ROUNDS, 2, &mut mac);
        meter.add_one();
        Derivation {
            password,
            salt,
            keyed,
            mac,
        }
    }

    /// The key of the tag.
    pub fn mac(&self) -> &[u8; 32]
        ensures { result.now ≡ self.now.mac }
    {
        &self.mac
    }

    /// Computes the other keys.
    pub fn finish(self) -> Keys
        ensures { result ≡ self.entry }
    {
        let mut cipher = [0; 32];
        fill_from(&self.keyed, self.salt, ROUNDS, 1, &mut cipher);
        let mut iv = [0; 16];
        fill_from(&self.keyed, self.salt, ROUNDS, 3, &mut iv);
        Keys {
            cipher,
            mac: self.mac,
            iv,
        }
    }
}

/// Derives the keys from a password and a salt: 80 bytes by 10,000 rounds of PBKDF2 with
/// HMAC-SHA-256. The meter, which must be below 2^63, counts the derivation.
pub fn derive(password: &[u8], salt: &[u8], meter: &mut Meter) -> Keys
    requires { meter.old < 2 ^ 63 }
    ensures keys { result ≡ vault_keys password.now salt.now }
    ensures counted { meter.new ≡ meter.old + 1 }
{
    Derivation::begin(password, salt, meter).finish()
}
