//! Requests, settled from words.
use crate::line_of;
use std::alloc::{AllocError, Global};
use std::process::Abort;
use std::test::Fail;
use vault_fault::{Fault, LabelRule};
use vault_request::{CommandName, Request, parse, settle};

/// The words of a line, separated by spaces, with the program's name before them.
fn words_of(alloc: Global, line: &str) -> Result<Vec<String>, AllocError> {
    let words: Vec<&str> = line.split(' ').collect(alloc)?;
    line_of(alloc, words.as_slice())
}

/// The request that the words of a line settle, or its fault.
fn settled(alloc: Global, line: &str) -> Result<Result<Request, Fault>, Fail> {
    let words = words_of(alloc, line)?;
    let matches = parse(alloc, words.as_slice())?;
    Ok(settle(alloc, &matches))
}

/// Whether a password file has this label and this path.
fn is_file(request: &Request, i: usize, label: &str, path: &str) -> bool {
    i < request.files() && request.label(i).as_str() == label && request.path(i) == path
}

/// Asserts that the words of a line name these password files, each by its label and its path.
fn assert_files(
    rt: &impl Abort,
    alloc: Global,
    line: &str,
    files: &[(&str, &str)],
) -> Result<(), Fail> {
    let request = settled(alloc, line)??;
    assert_eq!(rt; request.files(), files.len());
    for (i, &(label, path)) in files.iter().enumerate() {
        assert!(rt; is_file(&request, i, label, path), "file {i}");
    }
    Ok(())
}

#[test]
fn keeps_files_in_order(rt: HostRuntime) -> Result<(), Fail> {
    let alloc = rt.alloc();
    let line = "rekey --new-vault-id=prod@g --vault-password-file p --vault-id @f \
        --vault-id=f --vault-id dev@x@y --vault-id dev@";
    let files = [
        ("default", "f"),
        ("default", "f"),
        ("dev", "x@y"),
        ("dev", ""),
        ("default", "p"),
        ("prod", "g"),
    ];
    assert_files(&rt, alloc, line, &files)?;
    let line = "rekey --new-vault-password-file=a@g";
    assert_files(&rt, alloc, line, &[("default", "a@g")])
}

/// The parts of a request that are compared, besides its password files.
#[derive(Clone, Copy, Debug, PartialEq, Eq)]
struct Said<'a> {
    command: CommandName,
    seals: bool,
    secret_count: usize,
    choice: Option<&'a str>,
    name: Option<&'a str>,
    string: Option<&'a str>,
    salt_text: Option<&'a str>,
    salt_path: Option<&'a str>,
    rule: LabelRule,
    input: Option<&'a str>,
    output: Option<&'a str>,
}

/// What `view` says without an option.
const VIEW: Said<'static> = Said {
    command: CommandName::View,
    seals: false,
    secret_count: 0,
    choice: None,
    name: None,
    string: None,
    salt_text: None,
    salt_path: None,
    rule: LabelRule::Hint,
    input: None,
    output: None,
};

/// The label to encrypt with, as a text.
fn choice_of(request: &Request) -> Option<&str> {
    Some(request.choice()?.as_str())
}

/// All that a request says besides its password files.
fn said_by(request: &Request) -> Said<'_> {
    Said {
        command: request.command(),
        seals: request.seals(),
        secret_count: request.secret_count(),
        choice: choice_of(request),
        name: request.name(),
        string: request.string(),
        salt_text: request.salt_text(),
        salt_path: request.salt_path(),
        rule: request.rule(),
        input: request.input(),
        output: request.output(),
    }
}

/// What the rows for commands that encrypt say in common.
const ENCRYPT: Said<'static> = Said {
    command: CommandName::Encrypt,
    seals: true,
    choice: Some("b"),
    output: Some("o"),
    ..VIEW
};

/// What `rekey` says with only a new secret.
const REKEY: Said<'static> = Said {
    command: CommandName::Rekey,
    seals: true,
    salt_path: Some("/dev/urandom"),
    ..VIEW
};

/// Each option of each command, and what the request says. `keeps_files_in_order` looks at the
/// password files.
const CASES: [(&str, Said<'static>); 9] = [
    (
        "encrypt --vault-id=b@f --encrypt-vault-id=b --salt-file=s --output=o x",
        Said {
            secret_count: 1,
            salt_path: Some("s"),
            input: Some("x"),
            ..ENCRYPT
        },
    ),
    (
        "encrypt --vault-password-file=f --encrypt-vault-id=b --salt=abc --output=o",
        Said {
            secret_count: 1,
            salt_text: Some("abc"),
            ..ENCRYPT
        },
    ),
    (
        "encrypt_string -n k --encrypt-vault-id=b --salt-file=s --output=o secret",
        Said {
            command: CommandName::EncryptString,
            name: Some("k"),
            string: Some("secret"),
            salt_path: Some("s"),
            ..ENCRYPT
        },
    ),
    (
        "encrypt_string --vault-password-file=f --stdin-name= --encrypt-vault-id=b --salt=abc \
            --output=o",
        Said {
            command: CommandName::EncryptString,
            secret_count: 1,
            name: Some(""),
            salt_text: Some("abc"),
            ..ENCRYPT
        },
    ),
    (
        "decrypt --require-id-match --output=o x",
        Said {
            command: CommandName::Decrypt,
            rule: LabelRule::Required,
            input: Some("x"),
            output: Some("o"),
            ..VIEW
        },
    ),
    (
        "view --require-id-match x",
        Said {
            rule: LabelRule::Required,
            input: Some("x"),
            ..VIEW
        },
    ),
    ("rekey --new-vault-id=g --output=- -", REKEY),
    (
        "rekey --new-vault-id=g --salt-file=s",
        Said {
            salt_path: Some("s"),
            ..REKEY
        },
    ),
    (
        "rekey --new-vault-password-file=g --salt=abc --require-id-match",
        Said {
            salt_text: Some("abc"),
            salt_path: None,
            rule: LabelRule::Required,
            ..REKEY
        },
    ),
];

#[test]
fn reads_the_options_of_each_command(rt: HostRuntime) -> Result<(), Fail> {
    for (line, wanted) in CASES {
        let request = settled(rt.alloc(), line)??;
        assert_eq!(rt; said_by(&request), wanted, "{line}");
    }
    Ok(())
}

/// Each line, with the first fault of its request.
#[test]
fn names_the_first_fault(rt: HostRuntime) -> Result<(), Fail> {
    let cases = [
        ("view --vault-id a;b@f", Fault::BadLabel),
        ("view --vault-id=dev@prompt", Fault::PromptSource),
        ("rekey --vault-id=f", Fault::NeedNewSecret),
        ("encrypt f", Fault::OutputNeeded),
        ("encrypt_string --name k", Fault::NameMismatch),
        ("encrypt_string --stdin-name k s", Fault::NameMismatch),
        ("encrypt_string --name a\tb s", Fault::BadName),
        ("encrypt --salt=", Fault::BadSalt),
        (
            "encrypt --salt=aaaaaaaaaaaaaaaaaaaaaaaaaaaaaaaaaaaaaaaaaaaaaaaaaaaaaaaaaaaaaaaaa",
            Fault::BadSalt,
        ),
        ("encrypt --salt=abc --salt-file=g", Fault::SaltChoice),
        ("encrypt --salt= --salt-file=g", Fault::SaltChoice),
        ("encrypt f --salt=", Fault::OutputNeeded),
    ];
    for (line, fault) in cases {
        assert_eq!(rt; settled(rt.alloc(), line)?.err(), Some(fault), "{line}");
    }
    Ok(())
}

#[test]
fn takes_no_option_of_another_command(rt: HostRuntime) -> Result<(), Fail> {
    let alloc = rt.alloc();
    for line in [
        "encrypt --require-id-match",
        "encrypt_string --require-id-match",
        "decrypt --salt=a",
        "view --output=o",
        "rekey --encrypt-vault-id=a",
        "encrypt --salt=a --salt=b",
        "encrypt_string a b",
        "help",
        "",
    ] {
        let words = words_of(alloc, line)?;
        assert!(rt; parse(alloc, words.as_slice()).is_err(), "{line}");
    }
    Ok(())
}

#[test]
fn takes_sixteen_secrets(rt: HostRuntime) -> Result<(), Fail> {
    let alloc = rt.alloc();
    let mut line = String::from_str(alloc, "view")?;
    for _ in 0..16 {
        line.push_str(" --vault-id=f")?;
    }
    assert_eq!(rt; settled(alloc, line.as_str())??.files(), 16);
    line.push_str(" --vault-id=f")?;
    let fault = settled(alloc, line.as_str())?.err();
    assert_eq!(rt; fault, Some(Fault::TooManySecrets));
    Ok(())
}
