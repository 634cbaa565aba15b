//! The command line of `ansible-vault`, and the requests that it makes.
//!
//! ```rust
//! let mut words = Vec::new(alloc);
//! for word in ["ansible-vault", "view", "--vault-id=dev@dev.password", "vault.yml"] {
//!     words.push(String::from_str(alloc, word)?)?;
//! }
//! let matches = parse(alloc, words.as_slice())?;
//! let request = settle(alloc, &matches)?;
//! assert_eq!(rt; request.command(), CommandName::View);
//! assert_eq!(rt; request.input(), Some("vault.yml"));
//! ```
#![tactic(auto)]

mod arguments;
mod command_line;
mod command_name;
mod dash;
pub mod laws;
mod limits;
mod option_table;
mod options;
mod refusals;
mod request;
mod salt_file;
mod settling;
mod vault_id;

pub use command_line::{command, parse};
pub use command_name::CommandName;
pub use limits::SALT_TEXT_LIMIT;
pub use request::Request;
pub use settling::settle;
