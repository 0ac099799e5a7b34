// The quotas of a zone's pieces, by their areas.
ghost use Rattle.std.specs.Prelude.{◌≡◌, ◌≤◌, length};
ghost use Rattle.std.proofs.lemmas.List.Edits.{sets};
ghost use Rattle.glyphs.specs.Apportion.{apportion};
ghost use Rattle.discs.specs.Region.{areas};
ghost use Rattle.discs.specs.Slices.{pieces_left};
ghost use Rattle.plan.specs.Rows.{Readable};
ghost use Rattle.plan.specs.Bundled.{zone_shares, all_shares};

use crate::read::ReadJob;
use discs::pieces::Pieces;
use discs::rows::ZoneAt;
use glyphs::quotas::apportion;
use regions::area::piece_area;

// Puts the area of each piece, by its index: of what is written through a zip nothing is known after it.
fn put_areas(pieces: Pieces<'_>, out: &mut [f64])
    requires { length pieces.rings.now ≤ length out.old }
    ensures { out.new ≡ sets out.old 0 (areas (pieces_left pieces.entry)) }
{
    for (k, piece) in (0..pieces.rings.len()).zip(pieces) {
        out[k] = piece_area(piece);
    }
}

// Puts the shares, as numbers of the machine's width.
fn put_shares(shares: &[u64], quotas: &mut [usize])
    requires { length quotas.old ≡ length shares.now }
    ensures { quotas.new ≡ shares.now }
{
    for (i, quota) in quotas.iter_mut().enumerate() {
        *quota = shares[i] as usize;
    }
}

// Puts the quotas of pieces.
fn share_pieces(count: usize, pieces: Pieces<'_>, quotas: &mut [usize])
    requires few { length pieces.rings.now ≤ 16 }
    requires room { length quotas.old ≡ length pieces.rings.now }
    requires marks { count ≤ 2000 }
    ensures { quotas.new ≡ apportion count (areas (pieces_left pieces.entry)) }
{
    let mut areas = [0.0; 16];
    let mut shares = [0u64; 16];
    let n = pieces.rings.len();
    put_areas(pieces, &mut areas[..]);
    apportion(count as u64, &areas[..n], &mut shares[..]);
    put_shares(&shares[..n], quotas);
}

// Puts the quotas of a zone's pieces.
fn share_zone(job: ReadJob<'_, '_>, zone: ZoneAt, quotas: &mut [usize])
    requires zone { Readable job.layout.rings.now job.layout.sizes.now job.layout.points.now zone.row zone.at }
    requires room { length job.layout.rings.now ≤ length quotas.old }
    ensures { quotas.new ≡ sets quotas.old zone.at.piece (zone_shares job.entry.layout zone.row zone.at) }
{
    let ZoneAt { row, at } = zone;
    let p = at.piece;
    let q = p + row.pieces;
    share_pieces(row.count, job.layout.pieces(zone), &mut quotas[p..q]);
}

// Puts the quotas of all pieces of the zones.
pub fn share_zones(job: ReadJob<'_, '_>, quotas: &mut [usize])
    requires { length job.layout.rings.now ≤ length quotas.old }
    ensures { quotas.new ≡ sets quotas.old 0 (all_shares job.entry.layout) }
{
    for zone in job.layout.walk() {
        share_zone(job, zone, &mut quotas[..]);
    }
}
