//! An image in memory of its own.

ghost use Rattle.std.specs.Prelude.{◌≡◌};
ghost use Rattle.ifs_image.specs.Upgrade.{upgraded};

use crate::parts::ImageParts;
use std::marker::Model;

/// An image in memory of its own. Contracts see its parts, which fit the limits of the format and have distinct names.
#[derive(Debug)]
pub struct Image {
    parts: ImageParts,
}

impl Drop for Image {
    fn drop(self) {
        let Image { parts: _parts } = self;
    }
}

impl Model for Image {
    ghost use Rattle.ifs_image.specs.declared.parts.ImageParts.{ImageParts};
    ghost use Rattle.ifs_image.specs.Limits.{Fits};

    ghost Value = { ImageParts };

    ghost view = { λ a. a.parts };

    ghost invariant = { λ a. Fits a.parts };
}

impl Image {
    ghost use Rattle.ifs_image.specs.Limits.{Fits};

    /// The image of these parts, which fit. Allocates nothing.
    pub fn new(parts: ImageParts) -> Self
        requires { Fits parts }
        ensures { result ≡ parts }
    {
        Image { parts }
    }

    /// Borrows the parts.
    pub fn parts(&self) -> &ImageParts
        ensures value { result.now ≡ self.now }
        ensures fits { Fits self.now }
    {
        &self.parts
    }

    /// The parts themselves.
    fn into_parts(self) -> ImageParts
        ensures value { result ≡ self }
        ensures fits { Fits self }
    {
        let Image { parts } = self;
        parts
    }
}

/// Changes an image to version 2, and nothing else. An image of version 2 stays as it is. Allocates nothing.
pub fn upgrade(image: Image) -> Image
    ensures value { result ≡ upgraded image }
    ensures same { image.version ≡ 2 → result ≡ image }
{
    Image::new(ImageParts {
        version: 2,
        ..image.into_parts()
    })
}
