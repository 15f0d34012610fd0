//! Laws of image files.
ghost use Rattle.pk_image.specs.Image.{WhatIsReadIsAnImage, EveryImageIsRead};

/// A file without a wrong byte is an image of the pages that are read of it.
pub fn what_is_read_is_an_image()
    ensures { WhatIsReadIsAnImage }
{}

/// An image has no wrong byte, and is read as its shape and its pages.
pub fn every_image_is_read()
    ensures { EveryImageIsRead }
{}
