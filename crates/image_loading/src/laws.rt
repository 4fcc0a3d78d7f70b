//! The laws of images as bytes: each is what a function without work ensures.
ghost use Rattle.image_format.specs.Bytes.{bytes_of};
ghost use Rattle.image_loading.specs.Loaded.{BytesComeBack, ComesFrom, NamesFirst};

use crate::number_ranges::sections_fit;
use image::Image;

/// The fault that `load` names is a rule that is broken at that byte, and no rule is broken that comes before it.
pub fn names_first()
    ensures { NamesFirst }
{}

/// Bytes come back from the image that is loaded from them: what `encode` gives of it is these bytes again, unless memory was refused.
pub fn bytes_come_back()
    ensures { BytesComeBack }
{}

/// Each image comes back from its own bytes: `load` of what `encode` gives is that image again, unless memory was refused. So
/// images of equal bytes are equal. It reads the image's numbers, which have the 16 and 64 bits of their places, and does nothing else.
pub fn comes_back(image: &Image)
    ensures { ComesFrom (bytes_of image.now) image.now }
{
    sections_fit(image);
}
