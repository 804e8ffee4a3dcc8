// An image that was taken apart.
ghost use Rattle.list_image.specs.Laws.{Shaped};

use list_image::Shape;

// Its bytes, and what was counted of them.
#[derive(Clone, Copy)]
pub struct Opened<'a> {
    pub image: &'a [u8],
    pub shape: Shape,
    ghost shaped: { Shaped image.now shape.strings shape.words shape.erased shape.bytes },
}
