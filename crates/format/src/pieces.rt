// The rings and pieces of a job, laid out flat.
ghost use Rattle.std.specs.Prelude.{◌≡◌, ◌+◌, ◌*◌, ◌<◌, ◌≤◌, [], length, OnOk};
ghost use Rattle.format.specs.Refusals.{fault_of};
ghost use Rattle.format.specs.Rows.{faults};
ghost use Rattle.format.specs.Pieces.{ring_fault, piece_fault, piece_end};
ghost use Rattle.format.specs.Steps.{Room, RingPut, PiecePut, RunPut};

use crate::reader::Reader;
use crate::refusal::Refusal;
use arrayvec::ArrayVec;
use glyphs::rect::Point;

// The points of all rings, end to end; the number of vertices of each ring; the number of rings of each piece. How much room
// a job may want depends on how far it is read, so that each call asks for its own.
#[derive(Drop)]
pub struct Pieces<const POINTS: usize, const RINGS: usize, const PIECES: usize> {
    pub points: ArrayVec<Point, POINTS>,
    pub sizes: ArrayVec<usize, RINGS>,
    pub rings: ArrayVec<usize, PIECES>,
}

// A job of 65,536 bytes has at most so many: each point takes eight, and there are at most 64 zones of 16 pieces
// of 9 rings.
pub type JobPieces = Pieces<8192, 9216, 1024>;

impl<const POINTS: usize, const RINGS: usize, const PIECES: usize> Pieces<POINTS, RINGS, PIECES> {
    pub fn new() -> Self
        ensures points { result.points.items ≡ [] }
        ensures sizes { result.sizes.items ≡ [] }
        ensures rings { result.rings.items ≡ [] }
    {
        Pieces {
            points: ArrayVec::new(),
            sizes: ArrayVec::new(),
            rings: ArrayVec::new(),
        }
    }

    fn read_ring(&mut self, job: &mut Reader) -> Result<(), Refusal>
        requires point_room { Room job.old.bytes.now job.old.at self.old }
        requires ring_room { length self.old.sizes.items < RINGS }
        ensures fault { fault_of result ≡ ring_fault job.old.bytes.now job.old.at }
        ensures read { OnOk result (RingPut job.old.bytes.now job.old.at self.old job.new.at self.new) }
        ensures bytes { job.new.bytes ≡ job.old.bytes }
    {
        let vertices = job.item(2, 0, 256, Refusal::Count)? as usize;
        self.sizes.push(vertices);
        job.points(vertices, Refusal::Vertex, &mut self.points)?;
        Ok(())
    }

    fn read_piece(&mut self, job: &mut Reader) -> Result<(), Refusal>
        requires point_room { Room job.old.bytes.now job.old.at self.old }
        requires ring_room { length self.old.sizes.items + 9 ≤ RINGS }
        requires piece_room { length self.old.rings.items < PIECES }
        ensures fault { fault_of result ≡ piece_fault job.old.bytes.now job.old.at }
        ensures read { OnOk result (PiecePut job.old.bytes.now job.old.at self.old job.new.at self.new) }
        ensures bytes { job.new.bytes ≡ job.old.bytes }
    {
        let rings = job.item(1, 1, 9, Refusal::Count)? as usize;
        self.rings.push(rings);
        for _i in 0..rings {
            self.read_ring(job)?;
        }
        Ok(())
    }

    // The next `n` pieces.
    pub fn read_pieces(&mut self, job: &mut Reader, n: usize) -> Result<(), Refusal>
        requires point_room { Room job.old.bytes.now job.old.at self.old }
        requires ring_room { length self.old.sizes.items + 9 * n ≤ RINGS }
        requires piece_room { length self.old.rings.items + n ≤ PIECES }
        ensures fault { fault_of result ≡ faults (piece_fault job.old.bytes.now) (piece_end job.old.bytes.now) n job.old.at }
        ensures read { OnOk result (RunPut job.old.bytes.now n job.old.at self.old job.new.at self.new) }
        ensures bytes { job.new.bytes ≡ job.old.bytes }
    {
        for _i in 0..n {
            self.read_piece(job)?;
        }
        Ok(())
    }
}
