// The keys of zones.
ghost use Rattle.std.specs.Prelude.{◌≡◌, IfOk, OnOk};
ghost use Rattle.format.specs.Refusals.{fault_of};
ghost use Rattle.job.specs.Zones.{letter, letter_fault, next_byte, key_at, key_fault, count_at};

use format::reader::Reader;
use format::refusal::Refusal;

fn is_letter(byte: u8) -> bool
    ensures { result ≡ letter byte }
{
    byte.is_ascii_alphanumeric()
}

// The next byte of a key.
fn read_letter(job: &mut Reader) -> Result<(), Refusal>
    ensures fault { fault_of result ≡ letter_fault job.old.bytes.now job.old.at }
    ensures next { OnOk result (job.new.at ≡ next_byte job.old.at) }
    ensures bytes { job.new.bytes ≡ job.old.bytes }
{
    let byte = job.number(1)? as u8;
    if !is_letter(byte) {
        return Err(Refusal::KeyByte);
    }
    Ok(())
}

// The key of a zone, which is to come after the last one.
pub fn read_key<'a>(job: &mut Reader<'a>, last: &[u8]) -> Result<&'a [u8], Refusal>
    ensures fault { fault_of result ≡ key_fault job.old.bytes.now job.old.at last.now }
    ensures key { IfOk result (λ key. key.now ≡ key_at job.old.bytes.now job.old.at) }
    ensures next { OnOk result (job.new.at ≡ count_at job.old.bytes.now job.old.at) }
    ensures bytes { job.new.bytes ≡ job.old.bytes }
{
    let n = job.item(1, 1, 32, Refusal::Count)? as usize;
    let start = job.at;
    for _i in 0..n {
        read_letter(job)?;
    }
    let key = &job.bytes[start..job.at];
    let is_above = key > last;
    if !is_above {
        return Err(Refusal::KeyOrder);
    }
    Ok(key)
}
