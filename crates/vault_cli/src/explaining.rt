//! What the program prints if its arguments do not parse.
ghost use Rattle.std.specs.Prelude.{◌≡◌, ◌≢◌, ◌⊎◌, ◌++◌, ℕ, [], List, IfOk, MatchOption};
ghost use Rattle.std.specs.Prelude.{map, true};
ghost use Rattle.std.specs.IoError.{error_kind};
ghost use Rattle.std.specs.String.{string_bytes};
ghost use Rattle.std.specs.declared.io.ErrorKind.TheVariants.{OutOfMemory};
ghost use Rattle.clap.specs.Values.{kind_of};
ghost use Rattle.clap.specs.Words.{IsAmong, fault_of};
ghost use Rattle.vault_request.specs.CommandLine.{vault_app};
ghost use Rattle.vault_fault.specs.declared.fault.Fault.TheVariants.{Memory};
ghost use Rattle.vault_cli.specs.Call.{sink};
ghost use Rattle.vault_cli.specs.Escaped.{escaped_text};
ghost use Rattle.vault_cli.specs.Explained.{Explains, IsShownText};
ghost use Rattle.vault_cli.specs.runs.Reports.{Reports, companions_line, line_of};
ghost use Rattle.vault_cli.specs.runs.Reports.{not_text_line};

use crate::escaping::escaped_words;
use crate::runs::{Status, report};
use crate::writing::write_text;
use clap::Error;
use clap::error::ErrorKind;
use std::alloc::{AllocError, Global};
use std::io;
use vault_core::Fault;
use vault_request::parse;
use vault_text::{Sink, SinkFailed, Stage};

/// The last line of help, and of a message about a mistake.
const COMPANIONS: &str = "ansible-vault-edit creates and edits vaults; \
    ansible-vault-with has Ansible's other options.\n";

/// Reports on `err` that an argument is not UTF-8, or that there is no memory for the arguments,
/// and returns the status for that. A failure of `err` changes nothing else.
pub fn reject_words<E: Sink>(error: &io::Error, err: &mut E) -> Status
    requires { E.stage err.old ≡ Stage.Unbegun }
    ensures memory { error_kind error.now ≡ OutOfMemory
        → (result ≡ Status.OutOfMemory)
        × Reports (sink E.Sink err.old err.new) (line_of Memory) }
    ensures no_text { error_kind error.now ≢ OutOfMemory
        → (result ≡ Status.ParseFault)
        × Reports (sink E.Sink err.old err.new) not_text_line }
{
    if matches!(error.kind(), io::ErrorKind::OutOfMemory) {
        return report(Fault::Memory, err);
    }
    let _ = write_text(b"error: an argument is not UTF-8\n", err);
    Status::ParseFault
}

/// Writes the parser's text: help and the version to `out`, a mistake to `err`.
pub(crate) fn explain<K: Sink, E: Sink>(
    alloc: Global,
    words: &[String],
    error: &Error,
    out: &mut K,
    err: &mut E,
) -> Status
    requires out_unbegun { K.stage out.old ≡ Stage.Unbegun }
    requires err_unbegun { E.stage err.old ≡ Stage.Unbegun }
    requires kinds { (kind_of error.now ≡ ErrorKind.OutOfMemory)
        ⊎ IsAmong (kind_of error.now) (fault_of vault_app (map string_bytes words.now)) }
    ensures { Explains (sink K.Sink out.old out.new) (sink E.Sink err.old err.new) result
        (fault_of vault_app (map string_bytes words.now)) }
{
    if matches!(error.kind(), ErrorKind::OutOfMemory) {
        return report(Fault::Memory, err);
    }
    if error.use_stderr() {
        return reject(alloc, words, err);
    }
    let Ok(text) = help_text(alloc, error) else {
        return report(Fault::Memory, err);
    };
    match write_text(text.as_bytes(), out) {
        Ok(()) => Status::Success,
        Err(SinkFailed) => report(Fault::Write, err),
    }
}

/// The parser's help, which then names the companions, or the version.
fn help_text(alloc: Global, error: &Error) -> Result<String, AllocError> {
    let mut text = error.to_string(alloc)?;
    if matches!(error.kind(), ErrorKind::DisplayHelp) {
        write!(text, "\n{}", COMPANIONS)?;
    }
    Ok(text)
}

/// Reports on `err` what is wrong with the arguments.
fn reject<E: Sink>(alloc: Global, words: &[String], err: &mut E) -> Status
    requires { E.stage err.old ≡ Stage.Unbegun }
    ensures { ((result ≡ Status.ParseFault)
        × ((shown : List ℕ) × IsShownText shown
        × Reports (sink E.Sink err.old err.new) (shown ++ companions_line)))
        ⊎ ((result ≡ Status.OutOfMemory)
        × Reports (sink E.Sink err.old err.new) (line_of Memory)) }
{
    let Ok(text) = mistake_text(alloc, words) else {
        return report(Fault::Memory, err);
    };
    let _ = write_text(text.as_bytes(), err);
    Status::ParseFault
}

/// The text about a mistake in the arguments, which then names the companions.
fn mistake_text(alloc: Global, words: &[String]) -> Result<String, AllocError>
    ensures { IfOk result (λ text. (shown : List ℕ) × IsShownText shown
        × (string_bytes text ≡ shown ++ companions_line)) }
{
    let mut text = shown_mistake(alloc, words)?;
    text.push_str(COMPANIONS)?;
    Ok(text)
}

/// The parser's text of the mistake, with the arguments escaped. No contract says what such a text
/// contains, so it is shown only if it passes `is_shown`.
fn shown_mistake(alloc: Global, words: &[String]) -> Result<String, AllocError>
    ensures { IfOk result (λ text. IsShownText (string_bytes text)) }
{
    if let Some(error) = escaped_mistake(alloc, words)? {
        let text = error.to_string(alloc)?;
        let text = without_tips(alloc, text.as_str())?;
        if is_shown(text.as_str()) {
            return Ok(text);
        }
    }
    String::from_str(alloc, "error: the arguments are invalid\n")
}

/// The parser's text without its paragraph of tips. They go by the letters of a name, and would
/// answer Ansible's `create` with `rekey`.
fn without_tips(alloc: Global, text: &str) -> Result<String, AllocError> {
    if let Some((mistake, tips)) = text.split_once("\n\n  tip: ") {
        if let Some((_, usage)) = tips.split_once("\n\n") {
            return format!(in alloc; "{mistake}\n\n{usage}");
        }
    }
    String::from_str(alloc, text)
}

/// The mistake in the escaped arguments, so that each line end in its text is the parser's.
/// Escaping turns no argument into a command or an option, so there is a mistake.
fn escaped_mistake(alloc: Global, words: &[String]) -> Result<Option<Error>, AllocError>
    ensures { let kinds = fault_of vault_app (map escaped_text (map string_bytes words.now)) in
        IfOk result (λ mistake.
        MatchOption mistake (kinds ≡ []) (λ error. IsAmong (kind_of error) kinds)) }
{
    let escaped = escaped_words(alloc, words)?;
    let Some(error) = parse(alloc, escaped.as_slice()).err() else {
        return Ok(None);
    };
    if matches!(error.kind(), ErrorKind::OutOfMemory) {
        return Err(AllocError);
    }
    Ok(Some(error))
}

/// Whether a text is not empty, and has no control bytes other than line ends.
fn is_shown(text: &str) -> bool
    ensures { result ≡ true → IsShownText text.now }
{
    !text.is_empty()
        && text
            .bytes()
            .all(|byte| byte == b'\n' || !byte.is_ascii_control())
}
