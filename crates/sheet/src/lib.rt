//! The writer of a sheet.
#![tactic(auto)]

ghost use Rattle.std.specs.Prelude.{◌≡◌, ◌+◌, ◌≤◌, length};
ghost use Rattle.std.proofs.lemmas.List.Edits.{sets};

use format::words::{put_float, put_uint};

// The sheet, where its next zone goes, and how many zones it has. Its head says how long it is, and so is put last.
#[derive(Drop)]
pub struct Writer<'a> {
    pub sheet: &'a mut [u8],
    pub at: usize,
    pub zones: usize,
    pub ghost inside: { at ≤ length sheet.now },
    pub ghost few: { zones ≤ at },
}

// Puts the bytes of a key into `out` at `at`. By a loop: `copy_from_slice` calls memmove, which would be a name that a
// caller in C must have.
fn put_key(out: &mut [u8], at: usize, key: &[u8])
    requires { at + length key.now ≤ length out.old }
    ensures { out.new ≡ sets out.old at key.now }
{
    for (k, byte) in key.iter().enumerate() {
        out[at + k] = *byte;
    }
}

impl<'a> Writer<'a> {
    ghost use Rattle.std.specs.Prelude.{◌-◌, ◌*◌};
    ghost use mathlib.Core.List.{flat_map};
    ghost use Rattle.format.specs.Numbers.{float_bytes};
    ghost use Rattle.sheet.specs.Sheet.{zone_head, sheet_head};
    ghost use Rattle.sheet.specs.Steps.{Put};

    // A sheet without zones, which go behind its head.
    pub fn new(sheet: &'a mut [u8]) -> Writer<'a>
        requires { 15 ≤ length sheet.old }
        ensures same_reference { result.sheet.ghost_name ≡ sheet.entry.ghost_name }
        ensures sheet { result.sheet.now ≡ sheet.old }
        ensures at { result.at ≡ 15 }
        ensures zones { result.zones ≡ 0 }
    {
        Writer {
            sheet,
            at: 15,
            zones: 0,
        }
    }

    // Puts what stands before the spots of a zone: its key, and two numbers that are no lengths of slices.
    pub fn put_zone(&mut self, key: &[u8], placed: usize, unplaced: usize)
        requires { self.old.at + 5 + length key.now ≤ length self.old.sheet.now }
        ensures put { Put (zone_head key.now placed unplaced) 1 self.old self.new }
        ensures at { self.new.at ≡ self.old.at + 5 + length key.now }
    {
        let start = self.at + 1;
        let end = start + key.len();
        put_uint(&mut self.sheet[..], self.at, 1, key.len() as u64);
        put_key(&mut self.sheet[..], start, key);
        put_uint(&mut self.sheet[..], end, 2, placed as u64);
        put_uint(&mut self.sheet[..], end + 2, 2, unplaced as u64);
        self.at = end + 4;
        self.zones += 1;
    }

    // Puts x and y of each spot. Spots are floats, not points, as C lends them.
    pub fn put_spots(&mut self, spots: &[f64])
        requires { self.old.at + 8 * length spots.now ≤ length self.old.sheet.now }
        ensures put { Put (flat_map float_bytes spots.now) 0 self.old self.new }
        ensures at { self.new.at ≡ self.old.at + 8 * length spots.now }
    {
        for spot in spots {
            put_float(&mut self.sheet[..], self.at, *spot);
            self.at += 8;
        }
    }

    // Puts what stands before the zones.
    pub fn put_head(&mut self, radius: f64)
        requires { 15 ≤ self.old.at }
        ensures sheet { self.new.sheet.now ≡ sets self.old.sheet.now 0 (sheet_head (self.old.at - 4) radius self.old.zones) }
        ensures same_reference { self.new.sheet.ghost_name ≡ self.old.sheet.ghost_name }
        ensures at { self.new.at ≡ self.old.at }
        ensures zones { self.new.zones ≡ self.old.zones }
    {
        put_uint(&mut self.sheet[..], 0, 4, (self.at - 4) as u64);
        put_uint(&mut self.sheet[..], 4, 1, 1);
        put_float(&mut self.sheet[..], 5, radius);
        put_uint(&mut self.sheet[..], 13, 2, self.zones as u64);
    }
}
