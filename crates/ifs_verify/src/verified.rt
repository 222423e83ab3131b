//! An accepted image.

use ifs_image::{Budgets, ImageView};
use std::marker::Model;

/// An accepted image, in place in the verified bytes. Only `verify` makes one. Contracts see the parts of the image.
#[derive(Debug)]
pub struct Verified<'a> {
    image: ImageView<'a>,
}

impl<'a> Drop for Verified<'a> {
    fn drop(self) {
        let Verified { image: _image } = self;
    }
}

impl<'a> Model for Verified<'a> {
    ghost use Rattle.ifs_image.specs.declared.parts.ImageParts.{ImageParts};

    ghost Value = { ImageParts };

    ghost use Rattle.ifs_image.specs.Limits.{Fits};
    ghost use Rattle.ifs_verify.specs.Accepted.{IsAccepted};

    ghost view = { λ a. a.image };

    ghost invariant = { λ a. IsAccepted a.image × Fits a.image };
}

impl<'a> Verified<'a> {
    ghost use Rattle.std.specs.Prelude.{◌≡◌};
    ghost use Rattle.ifs_image.specs.Limits.{Fits};
    ghost use Rattle.ifs_verify.specs.Accepted.{IsAccepted};

    /// The accepted image, which fits its limits and keeps every rule.
    pub(crate) fn new(image: ImageView<'a>) -> Self
        requires accepted { IsAccepted image }
        requires fits { Fits image }
        ensures { result ≡ image.entry }
    {
        Verified { image }
    }

    /// The image, which is accepted and fits its limits.
    pub fn image(&self) -> &ImageView<'a>
        ensures value { result.now ≡ self.now }
        ensures accepted { IsAccepted self.now }
        ensures fits { Fits self.now }
    {
        &self.image
    }

    /// The stated budgets: the most that one event uses.
    pub fn budgets(&self) -> Budgets
        ensures { result ≡ self.now.budgets }
    {
        self.image.budgets()
    }
}
