//! A record of the bytes that a reader gave, or that a writer took. It exists only in proofs.
ghost use Rattle.std.specs.Prelude.{◌≡◌, ◌++◌, ℕ, List, []};
ghost use Rattle.std.specs.Borrow.{ftrue};
ghost use Rattle.std.specs.Coded.{coded_ℕ, coded_list};

use std::marker::Model;

/// Bytes, in the order in which they were given or taken. It takes no memory.
///
/// Nothing in memory shows which bytes these are, so the functions below meet their contracts with
/// empty bodies. A record is as true as whoever notes the bytes: only `ReadSource` and `WriteSink`
/// can do that.
#[derive(Drop)]
pub struct ByteLog {
    pub ghost bytes: { List ℕ } by { coded_list coded_ℕ },
}

impl Model for ByteLog {
    ghost also_owns = { λ _. ftrue };
}

impl ByteLog {
    pub fn new() -> ByteLog
        ensures { result.bytes ≡ [] }
    {
        ByteLog {}
    }

    /// The record with more bytes.
    pub fn with(&self, _bytes: &[u8]) -> ByteLog
        ensures { result.bytes ≡ self.now.bytes ++ _bytes.now }
    {
        ByteLog {}
    }
}
