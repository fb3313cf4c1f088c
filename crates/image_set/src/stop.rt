//! Why images aren't all taken.

ghost use Rattle.std.specs.Prelude.{◌≡◌};

use md_schema::ImageFault;
use std::alloc::{AllocError, AllocFailed};

/// Why images aren't all taken, with the name of the one that stops.
#[derive(Debug, Drop)]
pub enum ImageStop {
    /// The 257th image.
    TooMany(String),
    /// The store doesn't hold it.
    Missing(String),
    /// It has more than 268,435,456 bytes.
    TooLong(String),
    /// The store failed.
    ReadFault(String),
    /// The image's first fault, its offset counted in bytes from the image's first.
    Faulty(String, ImageFault),
    Memory,
}

impl From<AllocError> for ImageStop {
    ghost use Rattle.image_set.specs.declared.stop.ImageStop.TheVariants.{Memory};

    ghost from_gives = { λ _ e. e ≡ Memory };

    fn from(_e: AllocError) -> ImageStop {
        ImageStop::Memory
    }
}

impl<T: Drop> From<AllocFailed<T>> for ImageStop {
    ghost use Rattle.image_set.specs.declared.stop.ImageStop.TheVariants.{Memory};

    ghost from_gives = { λ _ e. e ≡ Memory };

    fn from(_e: AllocFailed<T>) -> ImageStop {
        ImageStop::Memory
    }
}
