use plcr_macho::Image;

/// An image, and its place in the list of images.
#[derive(Clone, Copy)]
pub struct Located {
    pub place: usize,
    pub image: Image,
}
