// How many figures were compared, and what was written of them.
ghost use Rattle.figures.specs.Counting.{Room, After};

use streaming::Sink;

#[derive(Clone, Copy)]
pub struct Tally {
    pub figures: u64,
    pub differences: u64,
    pub sink: Sink,
}

pub fn counted(tally: Tally, agrees: bool) -> Tally
    requires { Room 1 tally }
    ensures { After 1 tally result }
{
    let sink = tally.sink;
    if agrees {
        return Tally {
            figures: tally.figures + 1,
            differences: tally.differences,
            sink,
        };
    }
    Tally {
        figures: tally.figures + 1,
        differences: tally.differences + 1,
        sink,
    }
}
