// One tick of a desk: the lines that are reported, and the points that are due.
ghost use Rattle.std.specs.Prelude.{◌≡◌, ℕ, ◌+◌, ◌<◌};
ghost use Rattle.columns.specs.Numbers.{member};
ghost use Rattle.bench.specs.Firing.{starts_after, fires, any_fires};
ghost use Rattle.bench.specs.Due.{due_of, due_points};
ghost use Rattle.bench.specs.Ticked.{Ticked};

use crate::desks::Desk;
use crate::lines::Watched;
use columns::marks::Column;
use columns::numbers::Numbers;
use standings::turns::Standing;

// Whether a line is armed, and an occurrence of that span that ends at a tick started after its mark.
fn started(standing: Option<Standing>, span: u32, tick: u32) -> bool
    ensures { result ≡ starts_after standing span tick }
{
    matches!(standing, Some(Standing::Armed { mark }) if mark as u64 + span as u64 <= tick as u64)
}

impl Desk {
    // Whether a line is reported at the newest tick, whose column this is.
    fn is_reported(&self, line: &Watched, column: Column) -> bool
        ensures { result ≡ fires column self.now.standings self.now.count line.now }
    {
        column.has(line.last)
            && started(
                self.standings.standing(line.number as u16),
                line.span,
                self.count,
            )
    }

    // The numbers of the lines that are reported at it.
    fn reported(&self, column: Column) -> Numbers
        ensures { (n : ℕ) → member result n ≡ any_fires column self.now.standings self.now.count self.now.lines.items n }
    {
        let mut reported = Numbers::none();
        for line in self.lines.as_slice() {
            if self.is_reported(line, column) {
                reported.insert(line.number);
            }
        }
        reported
    }

    // The points of a line that fall due at it: its own, if it was reported its lag back.
    fn points_of(&self, line: &Watched) -> i16
        ensures { result ≡ due_of self.now.recent self.now.count line.now }
    {
        let then = self.count.saturating_sub(line.lag as u32);
        if self.recent.reported_at(then).contains(line.number) {
            line.points
        } else {
            0
        }
    }

    // The points of all lines that fall due at it.
    fn points_due(&self) -> i32
        ensures { result ≡ due_points self.now.recent self.now.count self.now.lines.items }
    {
        let mut points = 0;
        for line in self.lines.as_slice() {
            points += self.points_of(line) as i32;
        }
        points
    }

    // Counts a tick, whose column has the mark of the last keyword of each line that occurs: notes the reports, and
    // answers the tick, the reported numbers and the points: a tuple, as feed answers it.
    pub(crate) fn tick(&mut self, column: Column) -> (u32, Numbers, i32)
        requires { self.old.count < 4000000000 }
        ensures { Ticked self.old column result self.new }
    {
        self.count += 1;
        let reported = self.reported(column);
        self.recent.note(self.count, reported);
        (self.count, reported, self.points_due())
    }
}
