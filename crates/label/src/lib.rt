// The label of a job and an edition.

#![tactic(auto)]

ghost use Rattle.std.specs.Prelude.{◌≡◌};
ghost use Rattle.label.specs.Label.{label_of};

// The label that a transcript is sealed under.
pub fn label(job: u32, edition: u16) -> [u8; 6]
    ensures { result ≡ label_of job edition }
{
    let [a, b, c, d] = job.to_be_bytes();
    let [high, low] = edition.to_be_bytes();
    [a, b, c, d, high, low]
}
