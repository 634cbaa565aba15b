//! Devices whose calls are watched.
ghost use Rattle.std.specs.Prelude.{◌≡◌};

use vault_text::{Sink, SinkFailed, Source, SourceFailed};

/// A source or a sink that counts how often it is called after one of its calls failed or reported
/// the end.
#[derive(Drop)]
pub struct Watched<D: Drop> {
    pub device: D,
    is_over: bool,
    pub asked_after: usize,
}

impl<D: Drop> Watched<D> {
    pub fn new(device: D) -> Self
        ensures { result.device ≡ device }
    {
        Watched {
            device,
            is_over: false,
            asked_after: 0,
        }
    }

    fn count(&mut self)
        ensures { self.new.device ≡ self.old.device }
    {
        if self.is_over {
            self.asked_after = self.asked_after.saturating_add(1);
        }
    }
}

impl<S: Source + Drop> Source for Watched<S> {
    ghost gives = { λ s xs t. S.gives s.device xs t.device };

    ghost ended = { λ s. S.ended s.device };

    ghost failures = { λ s. S.failures s.device };

    ghost gives_none = { λ s. S.gives_none s.device };

    ghost gives_more = { λ s t u xs ys g h. S.gives_more s.device t.device u.device xs ys g h };

    ghost nothing_after_end = { λ s t xs g. S.nothing_after_end s.device t.device xs g };

    ghost failures_monotone = { λ s t xs g. S.failures_monotone s.device t.device xs g };

    fn fill(&mut self, buf: &mut [u8]) -> Result<usize, SourceFailed> {
        self.count();
        let filled = self.device.fill(buf);
        self.is_over = matches!(filled, Ok(0) | Err(_));
        filled
    }
}

impl<K: Sink + Drop> Sink for Watched<K> {
    ghost takes = { λ s xs t. K.takes s.device xs t.device };

    ghost stage = { λ s. K.stage s.device };

    ghost failures = { λ s. K.failures s.device };

    ghost takes_none = { λ s. K.takes_none s.device };

    ghost takes_more = { λ s t u xs ys g h. K.takes_more s.device t.device u.device xs ys g h };

    ghost failures_monotone = { λ s t xs g. K.failures_monotone s.device t.device xs g };

    fn begin(&mut self) -> Result<(), SinkFailed> {
        self.count();
        let begun = self.device.begin();
        self.is_over = begun.is_err();
        begun
    }

    fn put(&mut self, bytes: &[u8]) -> Result<usize, SinkFailed> {
        self.count();
        let taken = self.device.put(bytes);
        self.is_over = taken.is_err();
        taken
    }

    fn finish(&mut self) -> Result<(), SinkFailed> {
        self.count();
        let finished = self.device.finish();
        self.is_over = finished.is_err();
        finished
    }
}
