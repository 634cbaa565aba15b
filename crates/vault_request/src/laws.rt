//! Laws of requests, each stated as the contract of a function that does nothing.
ghost use Rattle.std.specs.Prelude.{◌≡◌};
ghost use Rattle.vault_request.specs.Laws.{SettledRequests, WordsNameACommand};
ghost use Rattle.vault_request.specs.declared.limits.TheConstants.{SALT_TEXT_LIMIT};

/// The length of the longest text of `--salt`, in bytes.
pub fn limits()
    ensures salt_text { SALT_TEXT_LIMIT ≡ 64 }
{}

/// Arguments without a fault name a command.
pub fn words_name_a_command()
    ensures { WordsNameACommand }
{}

/// Every request that `settle` builds has valid labels, and has a STRING only if its command takes
/// one.
pub fn settled_requests()
    ensures { SettledRequests }
{}
