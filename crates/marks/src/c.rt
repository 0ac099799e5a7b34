// The entries for C, as plain functions: marks_c exports one for each. They answer by numbers, as C does.
ghost use Rattle.std.specs.Prelude.{◌≡◌, length};
ghost use Rattle.float.specs.Order.{sqrt};
ghost use Rattle.glyphs.specs.Hash.{fnv1a};
ghost use Rattle.job.specs.Plan.{plan_of};
ghost use Rattle.marks.specs.Call.{Kept, planned, plan_length, plan_numbers};
ghost use Rattle.marks.specs.Leaves.{inverse_answer, inverse_number, inverse_value, quotas_answer, quotas_number, quotas_after};

use crate::call::Planned;

pub fn marks_root(x: f64) -> f64
    ensures { result ≡ sqrt x }
{
    crate::leaves::root(x)
}

pub fn marks_hash(bytes: &[u8]) -> u64
    ensures { result ≡ fnv1a bytes.now }
{
    crate::leaves::hash(bytes)
}

pub fn marks_radical_inverse(index: u64, base: u64, number: &mut u8) -> f64
    ensures value { result ≡ inverse_value (inverse_answer index base) }
    ensures lent { number.new ≡ inverse_number (inverse_answer index base) }
{
    match crate::leaves::radical_inverse(index, base) {
        Ok(value) => {
            *number = 0;
            value
        }
        Err(refusal) => {
            *number = u8::from(refusal);
            0.0
        }
    }
}

pub fn marks_quotas(count: u64, weights: &[f64], quotas: &mut [u64]) -> u8
    ensures answer { result ≡ quotas_number (quotas_answer count weights.now (length quotas.old)) }
    ensures lent { quotas.new ≡ quotas_after count weights.now quotas.old }
{
    match crate::leaves::quotas(count, weights, quotas) {
        Ok(()) => 0,
        Err(refusal) => u8::from(refusal),
    }
}

pub fn marks_plan(
    job: &[u8],
    first: &mut [f64],
    second: &mut [f64],
    sheet: &mut [u8],
    answer: &mut [u32; 3],
) -> u32
    ensures length { result ≡ plan_length (planned (plan_of job.now first.old second.old sheet.old)) }
    ensures answer { answer.new ≡ plan_numbers (planned (plan_of job.now first.old second.old sheet.old)) }
    ensures first { first.new ≡ (plan_of job.now first.old second.old sheet.old).first }
    ensures second { second.new ≡ (plan_of job.now first.old second.old sheet.old).second }
    ensures sheet { sheet.new ≡ (plan_of job.now first.old second.old sheet.old).sheet }
    ensures kept { Kept (planned (plan_of job.now first.old second.old sheet.old)) job.now sheet.new }
{
    match crate::call::plan(job, first, second, sheet) {
        Ok(
            Planned {
                length,
                free_trials,
                obstacle_trials,
            },
        ) => {
            *answer = [0, free_trials as u32, obstacle_trials as u32];
            length as u32
        }
        Err(refusal) => {
            *answer = [u8::from(refusal) as u32, 0, 0];
            0
        }
    }
}
