// The call from job bytes to sheet.
ghost use Rattle.std.specs.Prelude.{◌≡◌};
ghost use Rattle.job.specs.Plan.{plan_of};
ghost use Rattle.marks.specs.Call.{Kept, answered, planned};

pub use format::refusal::Refusal;
pub use plan::answer::Planned;

// Given, the sheet stands in front of its buffer.
pub fn plan(
    job: &[u8],
    first: &mut [f64],
    second: &mut [f64],
    sheet: &mut [u8],
) -> Result<Planned, Refusal>
    ensures answer { answered result ≡ planned (plan_of job.now first.old second.old sheet.old) }
    ensures first { first.new ≡ (plan_of job.now first.old second.old sheet.old).first }
    ensures second { second.new ≡ (plan_of job.now first.old second.old sheet.old).second }
    ensures sheet { sheet.new ≡ (plan_of job.now first.old second.old sheet.old).sheet }
    ensures kept { Kept (answered result) job.now sheet.new }
{
    plan::plan(job, first, second, sheet)
}
