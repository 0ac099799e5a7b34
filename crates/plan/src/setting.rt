// How each zone of the sheet is packed.
use discs::bundle::Packing;
use discs::radius::Size;

// The numbers, the options and the obstacles, and the size, where there is one.
#[derive(Clone, Copy)]
pub struct Setting<'a> {
    pub packing: Packing<'a>,
    pub size: Option<Size>,
}
