//! The entries for C, under the names that begin marks_, as include/marks.h declares them.
//! Each calls the function of its name in `marks::c` and promises the same.
#![tactic(auto)]

ghost use Rattle.std.specs.Prelude.{◌≡◌, length};
ghost use Rattle.float.specs.Order.{sqrt};
ghost use Rattle.glyphs.specs.Hash.{fnv1a};
ghost use Rattle.job.specs.Plan.{plan_of};
ghost use Rattle.marks.specs.Call.{Kept, planned, plan_length, plan_numbers};
ghost use Rattle.marks.specs.Leaves.{inverse_answer, inverse_number, inverse_value, quotas_answer, quotas_number, quotas_after};

#[unsafe(no_mangle)]
pub extern "C" fn marks_root(x: f64) -> f64
    ensures { result ≡ sqrt x }
{
    marks::c::marks_root(x)
}

#[unsafe(no_mangle)]
pub extern "C" fn marks_hash(bytes: &[u8]) -> u64
    ensures { result ≡ fnv1a bytes.now }
{
    marks::c::marks_hash(bytes)
}

#[unsafe(no_mangle)]
pub extern "C" fn marks_radical_inverse(index: u64, base: u64, number: &mut u8) -> f64
    ensures value { result ≡ inverse_value (inverse_answer index base) }
    ensures lent { number.new ≡ inverse_number (inverse_answer index base) }
{
    marks::c::marks_radical_inverse(index, base, number)
}

#[unsafe(no_mangle)]
pub extern "C" fn marks_quotas(count: u64, weights: &[f64], quotas: &mut [u64]) -> u8
    ensures answer { result ≡ quotas_number (quotas_answer count weights.now (length quotas.old)) }
    ensures lent { quotas.new ≡ quotas_after count weights.now quotas.old }
{
    marks::c::marks_quotas(count, weights, quotas)
}

#[unsafe(no_mangle)]
pub extern "C" fn marks_plan(
    job: &[u8],
    first: &mut [f64],
    second: &mut [f64],
    sheet: &mut [u8],
    answer: &mut [u32; 3],
) -> u32
    ensures length { result ≡ plan_length (planned (plan_of job.now first.old second.old sheet.old)) }
    ensures answer { answer.new ≡ plan_numbers (planned (plan_of job.now first.old second.old sheet.old)) }
    ensures first { first.new ≡ (plan_of job.now first.old second.old sheet.old).first }
    ensures second { second.new ≡ (plan_of job.now first.old second.old sheet.old).second }
    ensures sheet { sheet.new ≡ (plan_of job.now first.old second.old sheet.old).sheet }
    ensures kept { Kept (planned (plan_of job.now first.old second.old sheet.old)) job.now sheet.new }
{
    marks::c::marks_plan(job, first, second, sheet, answer)
}
