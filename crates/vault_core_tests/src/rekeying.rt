//! Rekeying in one slice of memory.
use std::test::Fail;
use vault_core::{Secrets, password_of, prepare_rekey};
use vault_kdf::Meter;
use vault_made::envelope;
use vault_text::{Label, MemSink, MemSource, Salt};

/// Keys are derived for the old secret and for the new one.
#[test]
fn gives_a_new_label_password_and_salt(rt: HostRuntime) -> Result<(), Fail> {
    let alloc = rt.alloc();
    let vault = envelope(alloc, "default", b"one", &[0; 32], b"text")?;
    let rekeyed = envelope(alloc, "prod", b"two", &[1; 32], b"text")?;
    let mut secrets = Secrets::new();
    secrets.push(Label::default_label(), password_of(b"one\n")?)?;
    let label = Label::new("prod")?;
    let salt = Salt::new(&[1; 32]).ok_or("the salt is too long")?;
    let mut work = [0; 1_024];
    let mut src = MemSource::new(vault.as_slice(), 4_096);
    let mut meter = Meter::new();
    let ready = prepare_rekey(
        &mut src, &mut work, &secrets, &label, b"two", &salt, &mut meter,
    )?;
    let tried = ready.tried();
    let mut sink = MemSink::new(alloc, 4_096);
    ready.write_to(&mut sink)?;
    assert_eq!(rt;
        (tried, meter.count(), sink.bytes()),
        (1, 2, rekeyed.as_slice())
    );
    Ok(())
}
