// The job's first bytes: its length, its version, the packer's options, and the obstacles.
ghost use Rattle.std.specs.Prelude.{◌≡◌, ◌+◌, ◌^◌, ◌<◌, ◌≤◌, ◌++◌, length, IfOk, OnOk};
ghost use Rattle.glyphs.specs.Rect.{rectangles};
ghost use Rattle.format.specs.Refusals.{fault_of};
ghost use Rattle.format.specs.Rows.{◌or_else◌};
ghost use Rattle.format.specs.Numbers.{u8, u32, u8_in};
ghost use Rattle.job.specs.Head.{version_at, arrangement_at, gap_at, obstacles_at, lent_fault, work_fault, number_after};
ghost use Rattle.job.specs.Head.{choices_fault, head_fault, arrangement_of, policy_of, radius_of, choices_of};
ghost use Rattle.job.specs.Head.{boundary_of, options_of};
ghost use Rattle.job.specs.Head.{obstacles_fault_at, obstacles_end_at, obstacles_from, rectangle_fault, rectangle, next_rectangle};
ghost use Rattle.job.specs.Steps.{number_of_kind};

use arrayvec::ArrayVec;
use discs::options::{GlyphOptions, Radius};
use format::numbers::{share, uint};
use format::reader::Reader;
use format::refusal::Refusal;
use glyphs::options::{GlyphArrangement, ObstaclePolicy};
use glyphs::rect::Rectangle;

// Row 1, the lent job. The reader stands behind the length field.
pub fn open(bytes: &[u8]) -> Result<Reader<'_>, Refusal>
    ensures fault { fault_of result ≡ lent_fault bytes.now }
    ensures job { IfOk result (λ job. (job.bytes.now ≡ bytes.now) × (job.at ≡ version_at)) }
{
    let n = bytes.len();
    if n < 5 || 65536 < n || uint(&bytes[..4]) != (n - 4) as u64 {
        return Err(Refusal::JobLength);
    }
    Ok(Reader { bytes, at: 4 })
}

// Row 2, the work slices, by their lengths.
pub fn check_work(first: usize, second: usize) -> Result<(), Refusal>
    ensures { fault_of result ≡ work_fault first second }
{
    if first < 8000 || second < 8000 {
        return Err(Refusal::WorkLength);
    }
    Ok(())
}

// A kind, and the number after it: none after kind 0.
fn read_choice(job: &mut Reader, most: u64) -> Result<Option<f64>, Refusal>
    requires { most < 2 ^ 32 }
    ensures fault { fault_of result
        ≡ u8_in job.old.bytes.now job.old.at 0 1 4
        or_else number_after (u8 job.old.bytes.now job.old.at) job.old.bytes.now (job.old.at + 1) most }
    ensures value { IfOk result (λ number.
        number ≡ number_of_kind (u8 job.old.bytes.now job.old.at) (u32 job.old.bytes.now (job.old.at + 1))) }
    ensures next { OnOk result (job.new.at ≡ job.old.at + 5) }
    ensures bytes { job.new.bytes ≡ job.old.bytes }
{
    let kind = job.item(1, 0, 1, Refusal::HeadValue)?;
    if kind == 0 {
        job.item(4, 0, 0, Refusal::NumberAfterKind)?;
        return Ok(None);
    }
    Ok(Some(job.share(0, most, Refusal::HeadValue)?))
}

// The case of a number, and the last one for any past it: `read_choices` lets none such through, and `options_of`
// judges nothing. A `TryFrom` could fail, and these two cannot; a `From<u64>` would be open to every caller.
fn arrangement_of(n: u64) -> GlyphArrangement
    ensures { result ≡ arrangement_of n }
{
    match n {
        0 => GlyphArrangement::Uniform,
        1 => GlyphArrangement::Rectangular,
        2 => GlyphArrangement::LowDiscrepancy,
        _ => GlyphArrangement::Random,
    }
}

fn policy_of(n: u64) -> ObstaclePolicy
    ensures { result ≡ policy_of n }
{
    match n {
        0 => ObstaclePolicy::BestEffort,
        _ => ObstaclePolicy::Strict,
    }
}

// Arrangement, policy, radius.
fn read_choices(job: &mut Reader) -> Result<(GlyphArrangement, ObstaclePolicy, Radius), Refusal>
    requires { job.old.at ≡ arrangement_at }
    ensures fault { fault_of result ≡ choices_fault job.old.bytes.now }
    ensures value { IfOk result (λ choices. choices ≡ choices_of job.old.bytes.now) }
    ensures next { OnOk result (job.new.at ≡ gap_at) }
    ensures bytes { job.new.bytes ≡ job.old.bytes }
{
    let arrangement = arrangement_of(job.item(1, 0, 3, Refusal::HeadValue)?);
    let obstacle_policy = policy_of(job.item(1, 0, 1, Refusal::HeadValue)?);
    let radius = match read_choice(job, 1048576)? {
        None => Radius::Auto,
        Some(radius) => Radius::Stated(radius),
    };
    Ok((arrangement, obstacle_policy, radius))
}

// Rows 3, 4 and 5: the version and the options.
pub fn read_options(job: &mut Reader) -> Result<GlyphOptions, Refusal>
    requires { job.old.at ≡ version_at }
    ensures fault { fault_of result ≡ head_fault job.old.bytes.now }
    ensures options { IfOk result (λ options. options ≡ options_of job.old.bytes.now) }
    ensures next { OnOk result (job.new.at ≡ obstacles_at) }
    ensures bytes { job.new.bytes ≡ job.old.bytes }
{
    job.item(1, 1, 1, Refusal::Version)?;
    let (arrangement, obstacle_policy, radius) = read_choices(job)?;
    let gap = job.share(0, 16384, Refusal::HeadValue)?;
    let boundary_gap = read_choice(job, 16384)?;
    let precision = job.share(1, 1048576, Refusal::HeadValue)?;
    let max_attempts = job.item(4, 0, 2000, Refusal::HeadValue)? as u32;
    let seed = job.number(8)?;
    Ok(GlyphOptions {
        arrangement,
        radius,
        gap,
        boundary_gap,
        seed,
        precision,
        max_attempts,
        obstacle_policy,
    })
}

// The radius, and the boundary's gap, by their kind and the number after it.
fn radius_of(kind: u64, n: u32) -> Radius
    ensures { result ≡ radius_of kind n }
{
    match kind {
        0 => Radius::Auto,
        _ => Radius::Stated(share(n)),
    }
}

fn boundary_of(kind: u64, n: u32) -> Option<f64>
    ensures { result ≡ boundary_of kind n }
{
    match kind {
        0 => None,
        _ => Some(share(n)),
    }
}

// The options of a head, whatever its values are: nothing is judged, and nothing refused.
pub fn options_of(s: &[u8]) -> GlyphOptions
    requires { 37 ≤ length s.now }
    ensures { result ≡ options_of s.now }
{
    let arrangement = arrangement_of(uint(&s[5..6]));
    let obstacle_policy = policy_of(uint(&s[6..7]));
    let radius = radius_of(uint(&s[7..8]), uint(&s[8..12]) as u32);
    let gap = share(uint(&s[12..16]) as u32);
    let boundary_gap = boundary_of(uint(&s[16..17]), uint(&s[17..21]) as u32);
    let precision = share(uint(&s[21..25]) as u32);
    let max_attempts = uint(&s[25..29]) as u32;
    let seed = uint(&s[29..37]);
    GlyphOptions {
        arrangement,
        radius,
        gap,
        boundary_gap,
        seed,
        precision,
        max_attempts,
        obstacle_policy,
    }
}

// The next obstacle: centre x, centre y, width and height.
fn read_rectangle(job: &mut Reader) -> Result<Rectangle, Refusal>
    ensures fault { fault_of result ≡ rectangle_fault job.old.bytes.now job.old.at }
    ensures value { IfOk result (λ rect. rect ≡ rectangle job.old.bytes.now job.old.at) }
    ensures next { OnOk result (job.new.at ≡ next_rectangle job.old.at) }
    ensures bytes { job.new.bytes ≡ job.old.bytes }
{
    Ok(Rectangle {
        center: job.point(Refusal::Obstacle)?,
        width: job.coord(Refusal::Obstacle)?,
        height: job.coord(Refusal::Obstacle)?,
    })
}

// Row 8: the obstacles where the reader stands, put behind those of `out`.
pub fn read_obstacles<const N: usize>(
    job: &mut Reader,
    out: &mut ArrayVec<Rectangle, N>,
) -> Result<(), Refusal>
    requires { length out.old.items + 64 ≤ N }
    ensures fault { fault_of result ≡ obstacles_fault_at job.old.bytes.now job.old.at }
    ensures read { OnOk result (out.new.items ≡ out.old.items ++ rectangles (obstacles_from job.old.bytes.now job.old.at)) }
    ensures next { OnOk result (job.new.at ≡ obstacles_end_at job.old.bytes.now job.old.at) }
    ensures bytes { job.new.bytes ≡ job.old.bytes }
{
    let n = job.item(2, 0, 64, Refusal::Obstacle)?;
    for _i in 0..n {
        out.push(read_rectangle(job)?);
    }
    Ok(())
}
