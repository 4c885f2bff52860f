//! A source whose bytes are looked at as they pass.

use crate::survey::byte_watch::{ByteWatch, feeds_in};
use crate::survey::oddity::OddLine;
use bt_lines::{DeviceFailed, Source};

/// Hands over what another source does, up to the block in which the first odd line shows. After that it reads nothing,
/// and fails.
#[derive(Drop)]
pub(crate) struct Watched<S> {
    source: S,
    watch: ByteWatch,
    // How many line feeds have passed, at most `u64::MAX`.
    feeds: u64,
    // The first odd line, if it has passed.
    found: Option<OddLine>,
    // Whether a read was refused because of it.
    has_stopped: bool,
}

impl<S> Watched<S> {
    ghost use Rattle.std.specs.Prelude.{◌≡◌, ◌++◌, [], List, None, ℕ};
    ghost use Rattle.bt_front.specs.inside.Watched.{EndsBy, Passes, Shows};

    /// Before the first byte of a source.
    pub(crate) fn new(source: S) -> Watched<S>
        ensures source { result.source ≡ source }
        ensures shows { Shows [] result }
    {
        Watched {
            source,
            watch: ByteWatch::new(),
            feeds: 0,
            found: None,
            has_stopped: false,
        }
    }

    /// The first odd line of what was handed over, if there is one.
    pub(crate) fn found(&self) -> Option<OddLine>
        ensures { result ≡ self.now.found }
    {
        self.found
    }

    /// The first odd line of a text that ends here, if there is one.
    pub(crate) fn finish(&self) -> Option<OddLine>
        ensures { (bytes : List ℕ) → Shows bytes self.now → EndsBy bytes result }
    {
        if self.found.is_some() {
            return self.found;
        }
        let oddity = self.watch.finish()?;
        Some(OddLine {
            line: self.feeds.saturating_add(1),
            oddity,
        })
    }

    /// The source.
    pub(crate) fn into_source(self) -> S
        ensures { result ≡ self.source }
    {
        let Watched { source, .. } = self;
        source
    }

    // Looks at the bytes that the source has handed over.
    fn pass(&mut self, bytes: &[u8])
        requires { self.old.found ≡ None }
        ensures passes { Passes self.old bytes.now self.new }
        ensures source { self.new.source ≡ self.old.source }
        ensures stopped { self.new.has_stopped ≡ self.old.has_stopped }
    {
        match self.watch.look(bytes) {
            Some(odd) => {
                let line = self.feeds.saturating_add(odd.feeds).saturating_add(1);
                self.found = Some(OddLine {
                    line,
                    oddity: odd.oddity,
                });
            }
            None => self.feeds = self.feeds.saturating_add(feeds_in(bytes)),
        }
    }
}

impl<S: Source> Source for Watched<S> {
    ghost use Rattle.std.specs.Prelude.{◌||◌};
    ghost use Rattle.bt_front.specs.inside.Watched.{IsWatchedRead};

    ghost has_failed = { λ watched. watched.has_stopped || S.has_failed watched.source };

    ghost is_read = { IsWatchedRead S.is_read };

    fn read(&mut self, block: &mut [u8]) -> Result<usize, DeviceFailed> {
        if self.found.is_some() {
            self.has_stopped = true;
            return Err(DeviceFailed);
        }
        let count = self.source.read(block)?;
        self.pass(&block[..count]);
        Ok(count)
    }

    fn failed(&self) -> bool {
        self.has_stopped || self.source.failed()
    }
}
