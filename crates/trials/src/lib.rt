// The trials, proved about the defined reports and points.
#![tactic(auto)]

ghost use Rattle.std.specs.Prelude.{◌≡◌, length};
ghost use Rattle.trials.specs.Trials.{trials, TrialsHold};

// A number, and that each trial shows the reports and the points that it is expected to show.
fn holding(number: usize) -> usize
    ensures same { result ≡ number }
    ensures hold { TrialsHold }
{
    number
}

/// How many trials there are, all of which hold.
pub fn trial_count() -> usize
    ensures count { result ≡ length trials }
    ensures hold { TrialsHold }
{
    holding(16)
}
