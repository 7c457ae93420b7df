// A build that was read goes out into a lent list: number 7, and the number of values. Assumes nothing.
#![tactic(auto)]

ghost use Rattle.std.specs.Prelude.{◌≡◌};
ghost use Rattle.model.specs.Steps.{write_result, write_after};

use refusal::Refusal;

// The build fills the front of `out`.
pub fn write_build(build: &[u32], out: &mut [u32]) -> Result<usize, Refusal>
    ensures value { result ≡ write_result build.now out.old }
    ensures out_after { out.new ≡ write_after build.now out.old }
{
    let n = build.len();
    refusal::check_room(n, out.len())?;
    out[..n].copy_from_slice(build);
    Ok(n)
}
