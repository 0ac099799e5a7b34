// The bytes of a job, read one item after the other. An item is whole before its value is judged.
use crate::numbers::{share, uint};
use crate::refusal::Refusal;
use arrayvec::ArrayVec;
use glyphs::rect::Point;

// The job, and where its next item stands.
#[derive(Clone, Copy)]
pub struct Reader<'a> {
    pub bytes: &'a [u8],
    pub at: usize,
}

impl<'a> Reader<'a> {
    ghost use Rattle.std.specs.Prelude.{◌≡◌, ◌+◌, ◌-◌, ◌*◌, ◌/◌, ◌^◌, ◌<◌, ◌≤◌, ◌++◌, length, min, IfOk, OnOk};
    ghost use Rattle.format.specs.Refusals.{number_of, fault_of};
    ghost use Rattle.format.specs.Rows.{◌unless◌, faults, each};
    ghost use Rattle.format.specs.Numbers.{uint, item, share, whole, coord_in, coord_at, next_coord, point_in, point_at, next_point};

    // The next number of `n` bytes.
    pub fn number(&mut self, n: usize) -> Result<u64, Refusal>
        requires { n ≤ 8 }
        ensures fault { fault_of result ≡ 6 unless whole self.old.bytes.now self.old.at n }
        ensures value { IfOk result (λ v. (v ≡ uint n self.old.bytes.now self.old.at) × (v < 256 ^ n)) }
        ensures next { OnOk result (self.new.at ≡ self.old.at + n) }
        ensures bytes { self.new.bytes ≡ self.old.bytes }
    {
        let end = self.at.checked_add(n).ok_or(Refusal::JobEnds)?;
        let bytes = self.bytes.get(self.at..end).ok_or(Refusal::JobEnds)?;
        self.at = end;
        Ok(uint(bytes))
    }

    // The next number of `n` bytes, which is to lie in `least`..=`most`.
    pub fn item(
        &mut self,
        n: usize,
        least: u64,
        most: u64,
        refusal: Refusal,
    ) -> Result<u64, Refusal>
        requires { n ≤ 8 }
        ensures fault { fault_of result ≡ item n self.old.bytes.now self.old.at least most (number_of refusal) }
        ensures value { IfOk result (λ v. (v ≡ uint n self.old.bytes.now self.old.at) × (least ≤ v) × (v ≤ most)) }
        ensures next { OnOk result (self.new.at ≡ self.old.at + n) }
        ensures bytes { self.new.bytes ≡ self.old.bytes }
    {
        let value = self.number(n)?;
        if !(least..=most).contains(&value) {
            return Err(refusal);
        }
        Ok(value)
    }

    // The next number of 1/1024, which is to lie in `least`..=`most`.
    pub fn share(&mut self, least: u64, most: u64, refusal: Refusal) -> Result<f64, Refusal>
        requires { most < 2 ^ 32 }
        ensures fault { fault_of result ≡ item 4 self.old.bytes.now self.old.at least most (number_of refusal) }
        ensures value { IfOk result (λ x. x ≡ share (uint 4 self.old.bytes.now self.old.at)) }
        ensures next { OnOk result (self.new.at ≡ self.old.at + 4) }
        ensures bytes { self.new.bytes ≡ self.old.bytes }
    {
        Ok(share(self.item(4, least, most, refusal)? as u32))
    }

    // The next coordinate, which is to lie in its range.
    pub fn coord(&mut self, refusal: Refusal) -> Result<f64, Refusal>
        ensures fault { fault_of result ≡ coord_in self.old.bytes.now (number_of refusal) self.old.at }
        ensures value { IfOk result (λ x. x ≡ coord_at self.old.bytes.now self.old.at) }
        ensures next { OnOk result (self.new.at ≡ next_coord self.old.at) }
        ensures bytes { self.new.bytes ≡ self.old.bytes }
    {
        let number = (self.number(4)? as u32).cast_signed();
        if !(-1048576..=1048576).contains(&number) {
            return Err(refusal);
        }
        Ok(number as f64 / 1024.0)
    }

    // The next point: its x, then its y.
    pub fn point(&mut self, refusal: Refusal) -> Result<Point, Refusal>
        ensures fault { fault_of result ≡ point_in self.old.bytes.now (number_of refusal) self.old.at }
        ensures value { IfOk result (λ point. point ≡ point_at self.old.bytes.now self.old.at) }
        ensures next { OnOk result (self.new.at ≡ next_point self.old.at) }
        ensures bytes { self.new.bytes ≡ self.old.bytes }
    {
        Ok(Point {
            x: self.coord(refusal)?,
            y: self.coord(refusal)?,
        })
    }

    // The next `n` points, put behind those of `out`, which has room for all that the job can hold.
    pub fn points<const N: usize>(
        &mut self,
        n: usize,
        refusal: Refusal,
        out: &mut ArrayVec<Point, N>,
    ) -> Result<(), Refusal>
        requires { length out.old.items + min n ((length self.old.bytes.now - self.old.at) / 8) ≤ N }
        ensures fault { fault_of result ≡ faults (coord_in self.old.bytes.now (number_of refusal)) next_coord (2 * n) self.old.at }
        ensures values { OnOk result (out.new.items ≡ out.old.items ++ each (point_at self.old.bytes.now) next_point n self.old.at) }
        ensures next { OnOk result (self.new.at ≡ self.old.at + 8 * n) }
        ensures bytes { self.new.bytes ≡ self.old.bytes }
    {
        for _i in 0..n {
            out.push(self.point(refusal)?);
        }
        Ok(())
    }
}
