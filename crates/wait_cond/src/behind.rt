// What is left of a run.
ghost use Rattle.std.specs.Prelude.{◌≡◌, ◌+◌, ◌<◌, ◌-◌, replicate, IfSome};
ghost use Rattle.wait_cond.specs.Waiting.{rest_samples, rest_len};

use la_base::Run;

// The samples of a run behind its sample k.
pub fn behind(run: Run, k: u64) -> Option<Run>
    requires { k < run.len }
    ensures samples { rest_samples result ≡ replicate (run.len - k - 1) run.value }
    ensures len { k + 1 + rest_len result ≡ run.len }
    ensures value { IfSome result (λ rest. rest.value ≡ run.value) }
{
    if k + 1 < run.len {
        Some(Run {
            value: run.value,
            len: run.len - k - 1,
        })
    } else {
        None
    }
}
