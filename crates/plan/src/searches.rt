// The deepest points that the reference searches for, each found once.
ghost use Rattle.std.specs.Prelude.{◌≡◌, ◌+◌, ◌≤◌, true, length, is_ok, IfOk};
ghost use Rattle.regions.specs.Pieces.{rings_of};
ghost use Rattle.discs.specs.Slices.{pieces_left};
ghost use Rattle.discs.specs.Floor.{Within};
ghost use Rattle.discs.specs.Searches.{starts_deepest, is_searched, searched, had_room};
ghost use Rattle.plan.specs.Found.{found_in, Searched, PiecesSearched};
ghost use Rattle.plan.specs.Bundled.{zone_found, all_fit, all_found};

use crate::parts::part;
use crate::read::ReadJob;
use deepest::search::{Deepest, deepest_point};
use deepest::waiting::NoRoom;
use discs::options::{GlyphOptions, Radius};
use discs::pieces::Pieces;
use discs::rows::{ZoneAt, is_left_in};
use glyphs::options::GlyphArrangement;
use lattice::uniform::piece_bounds;
use regions::piece::RegionPiece;

// Whether the packing of a piece starts from its deepest point.
fn starts_deepest(arrangement: GlyphArrangement, piece: RegionPiece<'_>, quota: usize) -> bool
    ensures { result ≡ starts_deepest arrangement (rings_of piece.entry) quota }
{
    match arrangement {
        GlyphArrangement::Uniform => 0 < quota,
        GlyphArrangement::Rectangular => 0 < quota,
        GlyphArrangement::LowDiscrepancy => (quota == 1) & piece_bounds(piece).is_some(),
        GlyphArrangement::Random => false,
    }
}

// Whether the deepest point of a piece is searched for.
fn is_searched(options: GlyphOptions, piece: RegionPiece<'_>, quota: usize) -> bool
    ensures { result ≡ is_searched options.radius options.arrangement (rings_of piece.entry) quota }
{
    match options.radius {
        Radius::Auto => true,
        Radius::Stated(r) => (r > 0.0) & starts_deepest(options.arrangement, piece, quota),
    }
}

// The deepest point of a piece, or none where it is not searched for.
fn search_piece(
    options: GlyphOptions,
    piece: RegionPiece<'_>,
    quota: usize,
    cells: &mut [f64; 8000],
) -> Result<Deepest, NoRoom>
    ensures room { is_ok result ≡ had_room (searched 1600 options (rings_of piece.entry) quota) }
    ensures found { IfOk result (λ found. found ≡ searched 1600 options (rings_of piece.entry) quota) }
{
    if !is_searched(options, piece, quota) {
        return Ok(Deepest::Nothing);
    }
    match deepest_point(piece, options.precision, &mut cells[..]) {
        Deepest::Full => Err(NoRoom),
        found => Ok(found),
    }
}

// Puts the deepest points of pieces, by index: of what is written through a zip nothing is known after it.
fn search_pieces(
    options: GlyphOptions,
    pieces: Pieces<'_>,
    quotas: &[usize],
    cells: &mut [f64; 8000],
    deepest: &mut [Deepest],
) -> Result<(), NoRoom>
    requires { length pieces.rings.now ≤ length deepest.old }
    ensures { PiecesSearched 0 (found_in options true (pieces_left pieces.entry) quotas.now) (is_ok result) deepest.old deepest.new }
{
    for (k, (piece, quota)) in (0..pieces.rings.len()).zip(pieces.zip(quotas)) {
        deepest[k] = search_piece(options, piece, *quota, cells)?;
    }
    Ok(())
}

// Puts the deepest points of a zone's pieces: none where the zone is left out, which is the row's to say.
fn search_zone(
    job: ReadJob<'_, '_>,
    quotas: &[usize],
    zone: ZoneAt,
    cells: &mut [f64; 8000],
    deepest: &mut [Deepest],
) -> Result<(), NoRoom>
    requires zone { Within job.layout.rings.now job.layout.sizes.now job.layout.points.now zone.row zone.at }
    requires quotas { length job.layout.rings.now ≤ length quotas.now }
    requires room { length job.layout.rings.now ≤ length deepest.old }
    ensures { PiecesSearched zone.at.piece (zone_found job.entry.layout job.entry.options quotas.now zone.row zone.at) (is_ok result) deepest.old deepest.new }
{
    let ZoneAt { row, at } = zone;
    let p = at.piece;
    let q = p + row.pieces;
    if !is_left_in(row) {
        deepest[p..q].fill(Deepest::Nothing);
        return Ok(());
    }
    search_pieces(
        job.options,
        job.layout.pieces(zone),
        part(quotas, p, row.pieces),
        cells,
        &mut deepest[p..q],
    )
}

// Puts the deepest points of all pieces of the zones.
pub fn search_zones(
    job: ReadJob<'_, '_>,
    quotas: &[usize],
    cells: &mut [f64; 8000],
    deepest: &mut [Deepest],
) -> Result<(), NoRoom>
    requires quotas { length job.layout.rings.now ≤ length quotas.now }
    requires room { length job.layout.rings.now ≤ length deepest.old }
    ensures { Searched 0
        (all_fit job.entry.layout job.entry.options quotas.now)
        (all_found job.entry.layout job.entry.options quotas.now)
        (is_ok result) deepest.old deepest.new }
{
    for zone in job.layout.walk() {
        search_zone(job, quotas, zone, cells, &mut deepest[..])?;
    }
    Ok(())
}
