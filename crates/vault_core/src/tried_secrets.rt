//! Finding the secret that matches an envelope: trying secrets one after the other.
ghost use Rattle.std.specs.Prelude.{◌≡◌, ◌+◌, ◌<◌, ◌^◌, Some, None, if◌then◌else◌, length};
ghost use Rattle.std.specs.Prelude.{filter, find};
ghost use Rattle.std.specs.Option.{option_map};
ghost use Rattle.vault_core.specs.TriedSecrets.{matches, keys_of, tries};
ghost use Rattle.vault_core.specs.Group.{is_member};
ghost use Rattle.vault_core.specs.Secrets.{tried_order};

use crate::secrets::{Secret, Secrets};
use crate::tag::tags_equal;
use vault_fault::LabelRule;
use vault_kdf::{Derivation, Keys, Meter, hmac};
use vault_text::{Label, Payload};

/// The secrets of a list that have the label of an envelope, or the ones that have another.
#[derive(Clone, Copy)]
pub(crate) enum Group {
    SameLabel,
    OtherLabels,
}

/// The result of a search among secrets: how many were tried, and the keys of the last one if it
/// matched.
#[derive(Drop)]
pub(crate) struct Search {
    pub tried: usize,
    pub keys: Option<Keys>,
}

/// Tries secrets in the tried order, up to the first that matches the payload. The key of a
/// secret's tag is derived only when its turn comes, and its other keys only if it matches.
pub(crate) fn find_match(secrets: &Secrets, payload: &Payload, meter: &mut Meter) -> Search
    requires { meter.old < 2 ^ 62 }
    ensures keys { result.keys ≡ option_map (keys_of payload.now)
        (find (matches payload.now) (tried_order secrets.now payload.now.label)) }
    ensures tried { result.tried
        ≡ tries payload.now (tried_order secrets.now payload.now.label) }
    ensures counted { meter.new ≡ meter.old + result.tried }
    ensures countable { meter.new < 2 ^ 63 }
{
    let list = secrets.as_slice();
    let same = search_group(list, Group::SameLabel, payload, meter);
    if same.keys.is_some() {
        return same;
    }
    match secrets.rule() {
        LabelRule::Hint => {
            let others = search_group(list, Group::OtherLabels, payload, meter);
            Search {
                tried: same.tried + others.tried,
                keys: others.keys,
            }
        }
        LabelRule::Required => same,
    }
}

/// Tries the secrets of a group, in their order, up to the first that matches the payload.
fn search_group(secrets: &[Secret], group: Group, payload: &Payload, meter: &mut Meter) -> Search
    requires { meter.old + length secrets.now < 2 ^ 63 }
    ensures keys { result.keys ≡ option_map (keys_of payload.now)
        (find (matches payload.now) (filter (is_member group payload.now.label) secrets.now)) }
    ensures tried { result.tried
        ≡ tries payload.now (filter (is_member group payload.now.label) secrets.now) }
    ensures counted { meter.new ≡ meter.old + result.tried }
{
    let mut tried = 0;
    for secret in secrets {
        if is_member(group, payload.label(), secret) {
            tried += 1;
            let keys = keys_if_match(secret, payload, meter);
            if keys.is_some() {
                return Search { tried, keys };
            }
        }
    }
    Search { tried, keys: None }
}

/// Whether a secret is in the group, for an envelope with this label.
fn is_member(group: Group, label: &Label, secret: &Secret) -> bool
    ensures { result ≡ is_member group label.now secret.now }
{
    match group {
        Group::SameLabel => secret.has_label(label),
        Group::OtherLabels => !secret.has_label(label),
    }
}

/// The keys of a secret, if the tag that they give is the payload's.
#[tactic(auto, unfolding(crate::specs::TriedSecrets::matches))]
fn keys_if_match(secret: &Secret, payload: &Payload, meter: &mut Meter) -> Option<Keys>
    requires { meter.old < 2 ^ 63 }
    ensures keys { result
        ≡ if matches payload.now secret.now then Some (keys_of payload.now secret.now) else None }
    ensures counted { meter.new ≡ meter.old + 1 }
{
    let derivation = Derivation::begin(secret.password, payload.salt().as_bytes(), meter);
    if tags_equal(&hmac(derivation.mac(), payload.cipher()), payload.tag()) {
        Some(derivation.finish())
    } else {
        None
    }
}
