//! A source that keeps which bytes it handed over, in proofs alone. It is proved over any source, so that of the bytes
//! below none is changed, passed over or counted twice.

ghost use Rattle.std.specs.Prelude.{◌≡◌, []};
ghost use Rattle.bt_files.specs.calls.Logged.{handed_by, source_below};

use bt_lines::{DeviceFailed, MovedBytes, Piece, Source};

/// A source, and what it handed over since it was opened.
#[derive(Drop)]
pub(crate) struct Logged<S> {
    source: S,
    handed: MovedBytes,
}

impl<S> Logged<S> {
    /// A source that was just opened.
    pub(crate) fn new(source: S) -> Logged<S>
        ensures source { source_below result ≡ source }
        ensures none { handed_by result ≡ [] }
    {
        Logged {
            source,
            handed: MovedBytes::new(),
        }
    }
}

impl<S: Source> Source for Logged<S> {
    ghost use Rattle.bt_files.specs.calls.Logged.{IsLoggedRead};

    ghost has_failed = { λ logged. S.has_failed (source_below logged) };

    ghost is_read = { IsLoggedRead S.is_read };

    fn read(&mut self, block: &mut [u8]) -> Result<usize, DeviceFailed> {
        let count = self.source.read(block)?;
        self.handed = self.handed.with(&Piece {
            bytes: &block[..count],
        });
        Ok(count)
    }

    fn failed(&self) -> bool {
        self.source.failed()
    }
}
