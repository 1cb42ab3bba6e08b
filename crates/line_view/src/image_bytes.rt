ghost use Rattle.std.specs.Prelude.{◌≡◌, ℕ, List, IfOk};

use ordered_entries::{Image, NoMemory};
use std::alloc::{AllocError, Global};
use std::clone::Clone;
use std::marker::Model;

/// The bytes of an image, which take no more memory than there are. An `Image` takes that of the longest.
#[derive(Drop)]
pub(crate) struct ImageBytes {
    held: Vec<u8>,
}

impl Model for ImageBytes {
    ghost Value = { List ℕ };

    ghost view = { λ b. b.held.items };
}

impl Clone for ImageBytes {
    ghost is_clone = { λ b c. c ≡ b };

    fn clone(&self) -> Result<ImageBytes, AllocError> {
        let held = self.held.clone()?;
        Ok(ImageBytes { held })
    }
}

impl ImageBytes {
    pub(crate) fn of(alloc: Global, image: &Image) -> Result<ImageBytes, NoMemory>
        ensures { IfOk result (λ made. made ≡ image.now) }
    {
        let held = Vec::from_slice(alloc, image.bytes())?;
        Ok(ImageBytes { held })
    }

    pub(crate) fn as_slice(&self) -> &[u8]
        ensures { result.now ≡ self.now }
    {
        &self.held
    }
}
