// A job that was read.
ghost use Rattle.plan.specs.Rows.{AllReadable, rows_prop};

use discs::layout::Layout;
use discs::options::GlyphOptions;
use glyphs::rect::Rectangle;

// Its bytes, which were lent, and what stands in the memory of the call. A zone has at most 16 pieces and 2,000 marks.
#[derive(Clone, Copy)]
pub struct ReadJob<'b, 'a> {
    pub bytes: &'b [u8],
    pub options: GlyphOptions,
    pub obstacles: &'a [Rectangle],
    pub layout: Layout<'a>,
    pub ghost readable: { AllReadable layout.rings.now layout.sizes.now layout.points.now layout.rows.now } by { rows_prop _ _ _ _ },
}
