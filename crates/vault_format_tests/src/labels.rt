//! Labels and salts.
use crate::contents::assert_bytes;
use std::process::Abort;
use std::test::Fail;
use vault_text::{BadLabel, Label, Salt};

fn assert_no_label(rt: &impl Abort, text: &str) {
    assert_eq!(rt; (text, Label::new(text).err()), (text, Some(BadLabel)));
}

#[test]
fn refuses_what_is_no_label(rt: HostRuntime) -> Result<(), Fail> {
    assert_no_label(&rt, "");
    assert_no_label(&rt, "a;b");
    assert_no_label(&rt, " a");
    assert_no_label(&rt, str::from_utf8(&[b'a'; 129])?);
    Ok(())
}

#[test]
fn keeps_the_text(rt: HostRuntime) -> Result<(), Fail> {
    let label = Label::new("a b")?;
    let default = Label::default_label();
    assert_eq!(rt; [label.as_str(), default.as_str()], ["a b", "default"]);
    assert!(rt; label.copy() == label && label != default);
    Ok(())
}

#[test]
fn a_salt_has_at_most_256_bytes(rt: HostRuntime) -> Result<(), Fail> {
    let salt = Salt::new(&[7; 256]).ok_or("refused")?;
    assert_bytes(&rt, salt.as_bytes(), &[7; 256]);
    assert!(rt; Salt::new(&[7; 257]).is_none());
    Ok(())
}
