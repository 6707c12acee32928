//! Laws of images and of reading. Their functions do nothing; what they ensure is the law.

ghost use Rattle.image_laws.specs.Laws as laws;

/// The image of each value in each representation represents it.
pub fn images_represent()
    ensures { laws.ImagesRepresent }
{}

/// A value has an image in a representation of its type exactly where no element or key is too large.
pub fn values_have_images()
    ensures { laws.AllHaveImages }
{}

/// What registers and a whole block are read as is what they represent.
pub fn reading_is_exact()
    ensures { laws.ReadingIsExact }
{}

/// An image is read as the value that it was made of.
pub fn images_are_read()
    ensures { laws.ImagesAreRead }
{}
