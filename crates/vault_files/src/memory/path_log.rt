//! A log of paths, in reserved memory.
ghost use Rattle.std.specs.Prelude.{◌≡◌, IfOk, map};
ghost use Rattle.std.specs.String.{string_bytes};
ghost use Rattle.vault_files.specs.PathLog.{new_log, with_path};

use std::alloc::{AllocError, Global};
use std::marker::Model;

/// The logged paths, in order, and an empty text with enough room for each path that can still be
/// logged.
#[derive(Drop)]
pub struct PathLog {
    longest: usize,
    spare: Vec<String>,
    pub(super) paths: Vec<String>,
}

impl Model for PathLog {
    ghost use Rattle.std.specs.Prelude.{◌≡◌, ◌+◌, ◌≤◌, [], All, length, map, vec_capacity};
    ghost use Rattle.std.specs.String.{string_bytes, string_capacity};
    ghost use Rattle.vault_files.specs.PathLog.{LogState};

    ghost Value = { LogState };

    ghost view = { λ log. record {
      longest = log.longest;
      room = length log.spare.items;
      paths = map string_bytes log.paths.items;
    } };

    ghost invariant = { λ log.
        All (λ text. (string_bytes text ≡ []) × (log.longest ≤ string_capacity text))
        log.spare.items
        × (length log.paths.items + length log.spare.items ≤ vec_capacity log.paths) };
}

impl PathLog {
    /// A log with room for this many paths, each of at most `longest` bytes.
    pub(super) fn new(alloc: Global, count: usize, longest: usize) -> Result<Self, AllocError>
        ensures { IfOk result (λ log. log ≡ new_log count longest) }
    {
        let paths = Vec::with_capacity(alloc, count)?;
        let mut spare = Vec::with_capacity(alloc, count)?;
        while spare.len() < count {
            spare.push(String::with_capacity(alloc, longest)?)?;
        }
        Ok(PathLog {
            longest,
            spare,
            paths,
        })
    }

    /// The log with a path added at its end; None if there is no room for it.
    pub(super) fn with(self, path: &str) -> Option<Self>
        ensures { result ≡ with_path self path.now }
    {
        let PathLog {
            longest,
            mut spare,
            mut paths,
        } = self;
        if path.len() > longest {
            return None;
        }
        let mut text = spare.pop()?;
        text.push_str(path).ok()?;
        paths.push(text).ok()?;
        Some(PathLog {
            longest,
            spare,
            paths,
        })
    }
}
